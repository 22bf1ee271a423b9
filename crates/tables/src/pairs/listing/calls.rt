// Making a list of the words of pairs.
ghost use Rattle.std.specs.Prelude.{◌≡◌, ◌<◌, ◌≤◌, []};
ghost use Rattle.marks.specs.Members.{members};
ghost use Rattle.tables.specs.Copying.{listed, Pushed, RowAdded};

use super::PairList;
use crate::pairs::TableRefusal;
use fileword::layout::word_of_pair;
use marks::set::MarkSet;

impl PairList {
    pub(crate) fn empty() -> PairList
        ensures { listed result ≡ [] }
    {
        PairList {
            words: [0; 4096],
            len: 0,
        }
    }

    // Puts a word behind the others, if there is room.
    fn push(&mut self, word: u32) -> Result<(), TableRefusal>
        ensures { Pushed (listed self.old) word result (listed self.new) }
    {
        let at = self.len;
        if at == 4096 {
            return Err(TableRefusal::TooManyAgreements);
        }
        self.len += 1;
        self.words[at] = word;
        Ok(())
    }

    // Adds the words of mark i with the higher marks of its row, if there is room. By number: the row may hold marks at
    // or above `marks`.
    pub(crate) fn add_row(&mut self, row: MarkSet, i: u32, marks: u32) -> Result<(), TableRefusal>
        requires { (i < marks) × (marks ≤ 128) }
        ensures { RowAdded (listed self.old) i marks (members row) result (listed self.new) }
    {
        for j in i + 1..marks {
            if row.has(j) {
                self.push(word_of_pair(i, j))?;
            }
        }
        Ok(())
    }
}
