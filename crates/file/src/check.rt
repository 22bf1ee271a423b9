// The verdict on a file: what it is, or the first fault of its first faulty word.
ghost use Rattle.std.specs.Prelude.{◌≡◌, None, Ok, Err};
ghost use Rattle.fileword.specs.Faults.{Judged};
ghost use Rattle.fileword.specs.Files.{Good};
ghost use Rattle.fileword.specs.Laws.{said};

use crate::faults::{Reading, lacks_end};
use crate::words::{form_said, marks_said, word_at};
use fileword::files::{Fault, FileRefusal, Summary};
use fileword::layout::k_of;

// Whether words are a good file, of which form, with how many marks and for which k.
pub fn check(words: &[u32]) -> Result<Summary, FileRefusal>
    ensures verdict { Judged None words.now result }
    ensures accepts { (f : Summary) → Good words.now f → result ≡ Ok f }
{
    let wanted = None;
    Reading { words, wanted }.judge()
}

impl Reading<'_> {
    // The verdict on the words.
    pub(crate) fn judge(&self) -> Result<Summary, FileRefusal>
        ensures { Judged self.now.wanted self.now.words.now result }
    {
        let words = self.words;
        match (0..words.len()).find_map(|place| self.refusal_at(place)) {
            Some(refusal) => Err(refusal),
            None if lacks_end(words) => Err(FileRefusal {
                fault: Fault::NoEnd,
                place: words.len(),
            }),
            None => Ok(summary(words)),
        }
    }
}

// What the head and the word after it say.
fn summary(words: &[u32]) -> Summary
    ensures { result ≡ said words.now }
{
    Summary {
        form: form_said(words),
        marks: marks_said(words),
        k: k_of(word_at(words, 0)),
    }
}
