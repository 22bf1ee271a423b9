// An open branch as sets of marks.
ghost use Rattle.std.specs.Prelude.{◌≡◌, ◌≤◌};
ghost use Rattle.plex.specs.Words.{holds};
ghost use Rattle.ceiling.specs.Formulas.{misses};
ghost use Rattle.marks.specs.Members.{members};
ghost use Rattle.branch.specs.Opened.{agreed};

use crate::branches::Branch;
use marks::set::MarkSet;
use sheet::kinds::neighbours;
use tables::bits::BitTable;

// Its sets, with the k and the table of the search.
#[derive(Clone, Copy)]
pub(crate) struct Opened<'a> {
    pub(crate) k: u32,
    pub(crate) table: &'a BitTable,
    pub(crate) chosen: MarkSet,
    pub(crate) candidates: MarkSet,
}

impl<'a> Opened<'a> {
    pub(crate) fn of(branch: &Branch, k: u32, table: &'a BitTable) -> Opened<'a>
        ensures k { result.k ≡ k }
        ensures table { result.table.now ≡ table.now }
        ensures chosen { members result.chosen ≡ holds branch.now.chosen }
        ensures candidates { members result.candidates ≡ holds branch.now.candidates }
    {
        Opened {
            k,
            table,
            chosen: MarkSet::from_words(branch.chosen),
            candidates: MarkSet::from_words(branch.candidates),
        }
    }

    // The same branch with other candidates.
    pub(crate) fn narrowed(self, candidates: MarkSet) -> Opened<'a>
        ensures { result ≡ record self.entry { candidates = candidates } }
    {
        Opened { candidates, ..self }
    }

    // How many chosen marks do not agree with a mark, itself counted if it is chosen.
    pub(crate) fn misses(self, mark: u32) -> u32
        ensures number { result ≡ misses 128 (agreed self.entry) (members self.entry.chosen) mark }
        ensures few { result ≤ 128 }
    {
        self.chosen.minus(neighbours(self.table, mark)).count()
    }
}
