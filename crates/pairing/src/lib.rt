//! Pair words: which marks a run of words names as pairs.
#![tactic(auto)]

ghost use Rattle.std.specs.Prelude.{◌≡◌, ◌≤◌, min};
ghost use Rattle.plex.specs.Meaning.{agree_by};
ghost use Rattle.plex.specs.Words.{holds};
ghost use Rattle.pairing.specs.Naming.{names, paired, IsJust};

use fileword::layout::{Kind, lower_of, upper_of};
use marks::set::MarkSet;

// The mark that a word pairs with mark i, if it is the word of a pair of two marks.
fn partner(word: u32, marks: u32, i: u32) -> Option<u32>
    requires { marks ≤ 128 }
    ensures { IsJust (paired marks word i) result }
{
    let a = upper_of(word);
    let b = lower_of(word);
    if !Kind::Pair.is_of(word) || a >= b || b >= marks {
        return None;
    }
    if a == i {
        Some(b)
    } else {
        (b == i).then_some(a)
    }
}

// The four words of the marks that a run of words pairs with mark i, in one pass over them. There are at most 128 marks.
pub fn row_among(words: &[u32], marks: u32, i: u32) -> [u32; 4]
    ensures { holds result ≡ agree_by (min marks 128) (names words.now) i }
{
    let few = marks.min(128);
    let mut row = MarkSet::empty();
    for word in words {
        if let Some(j) = partner(*word, few, i) {
            row = row.with(j);
        }
    }
    row.words()
}
