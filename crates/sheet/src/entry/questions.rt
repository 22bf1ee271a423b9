// A sealed sheet is a sheet.
ghost use Rattle.std.specs.Prelude.{◌≡◌, ◌<◌};
ghost use Rattle.plex.specs.Meaning.{meaning_by};
ghost use Rattle.sheet.specs.Rows.{row_words, bit_of, both_bits};

use super::Sealed;
use super::calls::words_in_row;
use crate::kinds::Sheet;

impl Sealed<'_> {
    // Bit j of the row of mark i.
    fn bit(&self, i: u32, j: u32) -> bool
        requires { (i < self.now.marks) × (j < self.now.marks) }
        ensures { result ≡ bit_of self.now.words.now (row_words self.now.marks) i j }
    {
        let at = i as usize * words_in_row(self.marks) + j as usize / 32;
        (self.words[at] >> (j % 32)) & 1 == 1
    }
}

impl<'a> Sheet for Sealed<'a> {
    ghost meaning = { λ s. meaning_by s.marks s.few (both_bits s.words.now (row_words s.marks)) };

    fn marks(&self) -> u32 {
        self.marks
    }

    fn agree(&self, i: u32, j: u32) -> bool {
        i < self.marks && j < self.marks && i != j && self.bit(i, j) && self.bit(j, i)
    }
}
