// What every kind of sheet answers.
ghost use Rattle.std.specs.Prelude.{◌≡◌, ℕ, false, List};
ghost use Rattle.plex.specs.Meaning.{Meaning, Struck};
ghost use Rattle.plex.specs.Sets.{card};
ghost use Rattle.plex.specs.Words.{holds};
ghost use Rattle.marks.specs.Members.{members};

use marks::set::MarkSet;

// A sheet means a number of marks and which of them agree. `Meaning` holds the laws of that too, so each kind owes them:
// at most 128 marks, agreement goes both ways, no mark agrees with itself, and none at or above their number agrees.
pub trait Sheet {
    ghost meaning: { Self → Meaning };

    // How many marks there are.
    fn marks(&self) -> u32
        ensures { result ≡ (meaning self.now).marks };

    // Whether two marks agree: no where they are equal or one is not a mark of the sheet.
    fn agree(&self, i: u32, j: u32) -> bool
        ensures { result ≡ (meaning self.now).agrees i j };

    // The four words of the marks that agree with mark i.
    fn row(&self, i: u32) -> [u32; 4]
        ensures { holds result ≡ (meaning self.now).agrees i }
    {
        let mut row = MarkSet::empty();
        for j in 0..self.marks() {
            if self.agree(i, j) {
                row = row.with(j);
            }
        }
        row.words()
    }
}

// The marks that agree with mark i.
pub fn neighbours<S: Sheet>(sheet: &S, i: u32) -> MarkSet
    ensures set { members result ≡ (S.Sheet.meaning sheet.now).agrees i }
    ensures number { card 128 (members result) ≡ card (S.Sheet.meaning sheet.now).marks ((S.Sheet.meaning sheet.now).agrees i) }
{
    MarkSet::from_words(sheet.row(i))
}

// A sheet that can be struck is a sheet too.
pub trait Strike: Sheet {
    // What striking never changes.
    ghost lasting: { Self → List ℕ };

    // Removes the agreement of marks i and j if it is there, and says whether it was; nothing else changes. It refuses
    // nothing, so yes or no is its whole answer.
    fn strike(&mut self, i: u32, j: u32) -> bool
        ensures said { result ≡ (Self.Sheet.meaning self.old).agrees i j }
        ensures struck { Struck (Self.Sheet.meaning self.old) i j (Self.Sheet.meaning self.new) }
        ensures lasts { lasting self.new ≡ lasting self.old }
        ensures idle { result ≡ false → self.new ≡ self.old };
}
