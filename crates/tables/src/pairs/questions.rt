// A table of pairs is a sheet, and can be struck.
ghost use Rattle.tables.specs.Meanings.{pair_table_meaning, loads};

use super::PairTable;
use fileword::layout::{Kind, word_of_pair};
use pairing::row_among;
use sheet::kinds::{Sheet, Strike};
use sheet::two::two_marks;

// What striking adds to the word of a pair: its kind becomes that of a struck pair.
const STRUCK: u32 = (Kind::StruckPair as u32 - Kind::Pair as u32) * 0x1000_0000;

impl Sheet for PairTable {
    ghost meaning = { pair_table_meaning };

    fn marks(&self) -> u32 {
        self.marks
    }

    fn agree(&self, i: u32, j: u32) -> bool {
        two_marks(self.marks, i, j).is_some_and(|(a, b)| self.names(a, b))
    }

    // In one pass over the pairs.
    fn row(&self, i: u32) -> [u32; 4] {
        row_among(&self.words[..self.len], self.marks, i)
    }
}

impl Strike for PairTable {
    ghost lasting = { loads };

    fn strike(&mut self, i: u32, j: u32) -> bool {
        let Some((a, b)) = two_marks(self.marks, i, j) else {
            return false;
        };
        let word = word_of_pair(a, b);
        let Some(at) = self.find(word) else {
            return false;
        };
        self.words[at] = word + STRUCK;
        true
    }
}
