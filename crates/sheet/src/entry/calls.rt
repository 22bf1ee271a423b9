// Beginning an entry, entering pairs, and sealing.
ghost use Rattle.std.specs.Prelude.{◌≡◌, ℕ, ◌+◌, ◌*◌, ◌/◌, ◌%◌, ◌^◌, ◌<◌, ◌≤◌, length, MatchResult, bit_or, slice_index, slice_set};
ghost use Rattle.sheet.specs.contracts.entry.questions.SealedSheet.TheImpl.{ghosts};
ghost use Rattle.sheet.specs.Rows.{row_words, bit_entered, LeastWords};
ghost use Rattle.sheet.specs.Entering.{number, entered, Begins, Enters};

use super::{Entry, EntryRefusal, NotBegun, Sealed};

impl EntryRefusal {
    pub fn number(self) -> u32
        ensures { result ≡ number self }
    {
        self as u32
    }
}

// How many words a row of that many bits takes.
pub(crate) fn words_in_row(marks: u32) -> usize
    requires { marks ≤ 128 }
    ensures { result ≡ row_words marks }
{
    (marks as usize).div_ceil(32)
}

// Sets bit j of a row.
fn set_bit(row: &mut [u32], j: u32)
    requires { j / 32 < length row.old }
    ensures { row.new ≡ slice_set row.old (j / 32) (bit_or (slice_index row.old (j / 32)) (2 ^ (j % 32))) }
{
    row[j as usize / 32] |= 1 << (j % 32);
}

impl<'a> Entry<'a> {
    // Begins an entry in words that the caller lends: clears the rows of the marks, and no other word.
    pub fn begin(words: &'a mut [u32], marks: u32) -> Result<Entry<'a>, NotBegun<'a>>
        ensures begins { Begins words.old marks result }
        ensures rows { LeastWords }
        ensures lent { MatchResult result (λ e. e.words.ghost_name ≡ words.entry.ghost_name) (λ b. b.words.ghost_name ≡ words.entry.ghost_name) }
    {
        if marks > 128 {
            return Err(NotBegun {
                refusal: EntryRefusal::TooManyMarks,
                words,
            });
        }
        let rows = marks as usize * words_in_row(marks);
        if words.len() < rows {
            return Err(NotBegun {
                refusal: EntryRefusal::TooFewWords,
                words,
            });
        }
        words[..rows].fill(0);
        Ok(Entry { words, marks })
    }

    // Enters that marks i and j agree; again, it changes nothing.
    pub fn enter(&mut self, i: u32, j: u32) -> Result<u32, EntryRefusal>
        ensures marks { self.new.marks ≡ self.old.marks }
        ensures lent { self.new.words.ghost_name ≡ self.old.words.ghost_name }
        ensures enters { Enters self.old.words.now self.old.marks i j result self.new.words.now }
    {
        if i >= self.marks || j >= self.marks {
            return Err(EntryRefusal::NoSuchMark);
        }
        if i == j {
            return Err(EntryRefusal::SameMark);
        }
        self.enter_bit(i, j);
        self.enter_bit(j, i);
        // an accepted call that has no other answer answers 0, as the rules say
        Ok(0)
    }

    // Sets bit j of the row of mark i: the row is lent to the setter.
    fn enter_bit(&mut self, i: u32, j: u32)
        requires first { i < self.old.marks }
        requires second { j < self.old.marks }
        ensures marks { self.new.marks ≡ self.old.marks }
        ensures lent { self.new.words.ghost_name ≡ self.old.words.ghost_name }
        ensures words { self.new.words.now ≡ bit_entered self.old.words.now (row_words self.old.marks) i j }
    {
        let r = words_in_row(self.marks);
        let start = i as usize * r;
        set_bit(&mut self.words[start..start + r], j);
    }

    // The sheet that was entered. It takes no more agreements.
    pub fn seal(self) -> Sealed<'a>
        ensures words { result.words.now ≡ self.entry.words.now }
        ensures marks { result.marks ≡ self.entry.marks }
        ensures agreement { (i j : ℕ) → (ghosts.meaning result).agrees i j ≡ entered self.entry.words.now self.entry.marks i j }
    {
        let Entry { words, marks } = self;
        Sealed { words, marks }
    }
}
