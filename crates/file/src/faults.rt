// What may be wrong with one word of a file.
ghost use Rattle.std.specs.Prelude.{◌≡◌, ◌<◌, length, nat_eq};
ghost use Rattle.fileword.specs.Faults.{may_begin, in_measured, in_pairs, may_stand, spare_set, in_range, comes_after, pair_fits, end_load, lacks_end};
ghost use Rattle.fileword.specs.Layout.{kind};
ghost use Rattle.file.specs.Finding.{Finds, FindsAt};

use crate::words::{form_said, marks_said, word_at};
use fileword::files::{Fault, FileRefusal, Form};
use fileword::layout::{Kind, k_of, load_of, lower_of, marks_of, upper_of};

fn is_end(word: u32) -> bool
    ensures { result ≡ nat_eq (kind word) 15 }
{
    Kind::End.is_of(word)
}

// Whether a word may stand after the head, for a reader who wants this form, or either if it is none.
fn may_begin(wanted: Option<Form>, word: u32) -> bool
    ensures { result ≡ may_begin wanted (kind word) }
{
    match Kind::of(word) {
        Some(Kind::Pair | Kind::End) => wanted != Some(Form::Measured),
        Some(Kind::Tolerance) => wanted != Some(Form::Pairs),
        _ => false,
    }
}

// The kinds of a mark's four words, in turn.
const KINDS_OF_A_MARK: [Kind; 4] = [Kind::PlannedXy, Kind::PlannedZ, Kind::SeenXy, Kind::SeenZ];

// Whether a word may stand at a place of a measured file, from place 2 on.
fn stands_in_measured(marks: u32, place: usize, word: u32) -> bool
    requires { 1 < place }
    ensures { result ≡ in_measured marks place (kind word) }
{
    let end = 2 + 4 * marks as usize;
    if place < end {
        KINDS_OF_A_MARK[(place - 2) % 4].is_of(word)
    } else {
        place == end && is_end(word)
    }
}

// Whether a word may stand behind the word before it in a pair file.
fn stands_in_pairs(before: u32, word: u32) -> bool
    ensures { result ≡ in_pairs (kind before) (kind word) }
{
    !is_end(before) && matches!(Kind::of(word), Some(Kind::Pair | Kind::End))
}

fn spare_set(word: u32) -> bool
    ensures { result ≡ spare_set word }
{
    match Kind::of(word) {
        Some(Kind::Head) => load_of(word) / 0x1_0000 != 0,
        Some(Kind::PlannedZ | Kind::SeenZ) => upper_of(word) != 0,
        _ => false,
    }
}

fn in_range(head: u32) -> bool
    ensures { result ≡ in_range head }
{
    marks_of(head) <= 128 && (1..=16).contains(&k_of(head))
}

// Whether a word's pair comes after that of the word before it.
fn comes_after(before: u32, word: u32) -> bool
    ensures { result ≡ comes_after before word }
{
    (upper_of(before), lower_of(before)) < (upper_of(word), lower_of(word))
}

// Whether a pair names two marks, the lower first, and comes after the one before it.
fn pair_fits(marks: u32, place: usize, before: u32, word: u32) -> bool
    ensures { result ≡ pair_fits marks place before word }
{
    upper_of(word) < lower_of(word)
        && lower_of(word) < marks
        && (place == 1 || comes_after(before, word))
}

// What an end at this place must say.
fn end_load(words: &[u32], place: usize) -> usize
    ensures { result ≡ end_load words.now place }
{
    match form_said(words) {
        Form::Measured => marks_said(words) as usize,
        Form::Pairs => place.saturating_sub(1),
    }
}

// A file's words, and the form that their reader wants, or either if it is none.
#[derive(Clone, Copy)]
pub(crate) struct Reading<'a> {
    pub(crate) words: &'a [u32],
    pub(crate) wanted: Option<Form>,
}

impl Reading<'_> {
    // Whether the kind of the word at a place may stand there.
    fn may_stand(&self, place: usize) -> bool
        ensures { result ≡ may_stand self.now.wanted self.now.words.now place }
    {
        let word = word_at(self.words, place);
        match (place, form_said(self.words)) {
            (0, _) => Kind::Head.is_of(word),
            (1, _) => may_begin(self.wanted, word),
            (_, Form::Measured) => stands_in_measured(marks_said(self.words), place, word),
            (_, Form::Pairs) => stands_in_pairs(word_at(self.words, place - 1), word),
        }
    }

    // The first fault of the word at a place, if it has any.
    fn fault_at(&self, place: usize) -> Option<Fault>
        requires { place < length self.now.words.now }
        ensures { Finds self.now.wanted self.now.words.now place result }
    {
        let word = word_at(self.words, place);
        if !self.may_stand(place) {
            return Some(Fault::WrongKind);
        }
        if spare_set(word) {
            return Some(Fault::SpareBit);
        }
        if place == 0 && !in_range(word) {
            return Some(Fault::OutOfRange);
        }
        let before = word_at(self.words, place.saturating_sub(1));
        match Kind::of(word) {
            Some(Kind::Pair) if !pair_fits(marks_said(self.words), place, before, word) => {
                Some(Fault::WrongPair)
            }
            Some(Kind::End) if load_of(word) as usize != end_load(self.words, place) => {
                Some(Fault::WrongEnd)
            }
            _ => None,
        }
    }

    // The refusal for the word at a place, if it has a fault.
    pub(crate) fn refusal_at(&self, place: usize) -> Option<FileRefusal>
        requires { place < length self.now.words.now }
        ensures { FindsAt self.now.wanted self.now.words.now place result }
    {
        self.fault_at(place)
            .map(|fault| FileRefusal { fault, place })
    }
}

// Whether no word is an end.
pub(crate) fn lacks_end(words: &[u32]) -> bool
    ensures { result ≡ lacks_end words.now }
{
    !words.iter().copied().any(is_end)
}
