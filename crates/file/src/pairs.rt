// A sheet that reads a pair file where its words stand.
ghost use Rattle.std.specs.Prelude.{◌≡◌, ◌<◌};
ghost use Rattle.pairing.specs.Naming.{names};
ghost use Rattle.file.specs.Sheets.{pair_meaning, PairsRead, PairsAccepted};

use crate::faults::Reading;
use crate::words::sheet_marks;
use fileword::files::{FileRefusal, Form};
use fileword::layout::word_of_pair;
use pairing::row_among;
use sheet::kinds::Sheet;
use sheet::two::two_marks;

// Like `MeasuredSheet` but for which marks agree; a trait of that, with meaning and proofs, would be no plainer.
#[derive(Clone, Copy)]
pub struct PairSheet<'a> {
    words: &'a [u32],
}

impl<'a> PairSheet<'a> {
    // The sheet of a pair file, which is checked first.
    pub fn read(words: &'a [u32]) -> Result<PairSheet<'a>, FileRefusal>
        ensures reads { PairsRead words.now result }
        ensures accepts { PairsAccepted words.now result }
    {
        let wanted = Some(Form::Pairs);
        Reading { words, wanted }.judge()?;
        Ok(PairSheet { words })
    }

    // Whether the file names the pair of marks.
    fn names(&self, a: u32, b: u32) -> bool
        requires { (a < 128) × (b < 128) }
        ensures { result ≡ names self.now.words.now a b }
    {
        self.words.contains(&word_of_pair(a, b))
    }
}

impl<'a> Sheet for PairSheet<'a> {
    ghost meaning = { λ s. pair_meaning s.words.now };

    fn marks(&self) -> u32 {
        sheet_marks(self.words)
    }

    fn agree(&self, i: u32, j: u32) -> bool {
        // not by `is_some_and`: nothing would be known of what its closure answers, since the sheet borrows
        match two_marks(self.marks(), i, j) {
            Some((a, b)) => self.names(a, b),
            None => false,
        }
    }

    // In one pass over the words.
    fn row(&self, i: u32) -> [u32; 4] {
        row_among(self.words, self.marks(), i)
    }
}
