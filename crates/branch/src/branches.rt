// Open branches of the search.
ghost use Rattle.std.specs.Prelude.{◌≡◌};
ghost use Rattle.plex.specs.Words.{holds};
ghost use Rattle.searching.specs.Trimming.{Trimmed};
ghost use Rattle.searching.specs.Computed.{pick};
ghost use Rattle.tables.specs.Meanings.{bit_meaning};

use crate::opened::Opened;
use tables::bits::BitTable;

// An open branch: the k-plexes that have all chosen marks, and no others but candidates. Each set is its four words, with no
// count: a search holds 129 branches.
#[derive(Clone, Copy)]
pub struct Branch {
    pub chosen: [u32; 4],
    pub candidates: [u32; 4],
}

impl Branch {
    // Trims the candidates in place to the largest part that fits; `held` is the size of the group held.
    pub fn trim(&mut self, k: u32, table: &BitTable, held: u32)
        ensures chosen { self.new.chosen ≡ self.old.chosen }
        ensures trimmed { Trimmed 128 k (bit_meaning table.now).agrees held (holds self.old.chosen) (holds self.old.candidates) (holds self.new.candidates) }
    {
        let opened = Opened::of(self, k, table);
        let mut fitting = opened.joinable();
        if k <= held {
            fitting = opened.narrowed(fitting).agreeing_enough(held - k);
        }
        self.candidates = fitting.words();
    }

    // The candidate by which the branch is split.
    pub fn split_mark(&self, k: u32, table: &BitTable) -> Option<u32>
        ensures { result ≡ pick 128 k (bit_meaning table.now).agrees (holds self.now.chosen) (holds self.now.candidates) }
    {
        let opened = Opened::of(self, k, table);
        // no `or_else`: of what its closure answers nothing is known without a clause that says it
        if let Some(u) = opened.most_agreeing(opened.tight_marks()) {
            return Some(u);
        }
        opened.most_agreeing(opened.candidates)
    }
}
