// The verdict on a file's bytes.
ghost use Rattle.std.specs.Prelude.{◌≡◌};
ghost use Rattle.page.specs.Verdicts.{number_of, place_of, Verdict, OneVerdict};
ghost use Rattle.page.specs.declared.verdict.Refusal.TheVariants.{Word};

use crate::words::store_words;
use file::check::check;
use fileword::files::{FileRefusal, Summary};

// The most bytes that a file may have.
const MOST_BYTES: usize = 65536;

// Why a file is refused.
#[derive(Clone, Copy)]
pub enum Refusal {
    // more than 65,536 bytes, or not whole words
    NotWords,
    // a fault of a word
    Word(FileRefusal),
}

impl From<FileRefusal> for Refusal {
    ghost from_gives = { λ r s. s ≡ Word r };

    fn from(of_word: FileRefusal) -> Refusal {
        Refusal::Word(of_word)
    }
}

impl Refusal {
    // Not `self as u32`: one case carries a refusal of its own.
    pub fn number(self) -> u32
        ensures { result ≡ number_of self }
    {
        match self {
            Refusal::NotWords => 61,
            Refusal::Word(refusal) => refusal.number(),
        }
    }

    // The place of the word, counted from 0.
    pub fn place(self) -> usize
        ensures { result ≡ place_of self }
    {
        match self {
            Refusal::NotWords => 0,
            Refusal::Word(refusal) => refusal.place,
        }
    }
}

// What a file is, or why it is refused.
#[tactic(auto, using(crate::proofs::Once::one_on_bytes))]
pub fn verdict(bytes: &[u8]) -> Result<Summary, Refusal>
    ensures verdict { Verdict bytes.now result }
    ensures once { OneVerdict }
{
    if bytes.len() > MOST_BYTES || bytes.len() % 4 != 0 {
        return Err(Refusal::NotWords);
    }
    let mut words = [0; MOST_BYTES / 4];
    store_words(bytes, &mut words);
    Ok(check(&words[0..bytes.len() / 4])?)
}
