// What the words of a file say, wherever they stand.
ghost use Rattle.std.specs.Prelude.{◌≡◌};
ghost use Rattle.fileword.specs.Faults.{at, marks_said};
ghost use Rattle.fileword.specs.Laws.{form_said};
ghost use Rattle.file.specs.Sheets.{sheet_marks};

use fileword::files::Form;
use fileword::layout::{Kind, marks_of};

// The word at a place; past the end it is 0, which is of no kind.
pub(crate) fn word_at(words: &[u32], place: usize) -> u32
    ensures { result ≡ at words.now place }
{
    words.get(place).copied().unwrap_or(0)
}

// How many marks the head says there are.
pub(crate) fn marks_said(words: &[u32]) -> u32
    ensures { result ≡ marks_said words.now }
{
    marks_of(word_at(words, 0))
}

// How many marks a sheet has that reads the words: never more than 128.
pub(crate) fn sheet_marks(words: &[u32]) -> u32
    ensures { result ≡ sheet_marks words.now }
{
    marks_said(words).min(128)
}

// The form of the file, which the word after the head decides.
pub(crate) fn form_said(words: &[u32]) -> Form
    ensures { result ≡ form_said words.now }
{
    if Kind::Tolerance.is_of(word_at(words, 1)) {
        Form::Measured
    } else {
        Form::Pairs
    }
}
