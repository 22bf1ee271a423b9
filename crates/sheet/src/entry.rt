// A sheet under entry, and the same sheet sealed.
ghost use Rattle.std.specs.Prelude.{◌*◌, ◌≤◌, length};
ghost use Rattle.sheet.specs.Rows.{row_words};

// Takes agreements and cannot be searched: it is no `Sheet`.
#[derive(Drop)]
pub struct Entry<'a> {
    words: &'a mut [u32],
    marks: u32,
    ghost few: { marks ≤ 128 },
    ghost fits: { marks * row_words marks ≤ length words.now },
}

// Can be searched and takes no more agreements.
#[derive(Clone, Copy)]
pub struct Sealed<'a> {
    words: &'a [u32],
    marks: u32,
    ghost few: { marks ≤ 128 },
    ghost fits: { marks * row_words marks ≤ length words.now },
}

// Why an entry is not begun, or a pair not entered.
#[derive(Clone, Copy, PartialEq, Eq)]
pub enum EntryRefusal {
    // more than 128 marks
    TooManyMarks = 21,
    // fewer words than the rows of the marks take
    TooFewWords = 22,
    // a mark is not below the number of marks
    NoSuchMark = 23,
    // the same mark twice
    SameMark = 24,
}

// An entry that was not begun: why, and the words as they were.
#[derive(Drop)]
pub struct NotBegun<'a> {
    pub refusal: EntryRefusal,
    pub words: &'a mut [u32],
}

pub mod calls;
pub mod questions;
