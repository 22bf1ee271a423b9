// What co-pruning leaves, in both kinds of table, compared with the listing.
use crate::listing::{Bounds, degree};
use coprune::look::Pair;
use coprune::prune::co_prune;
use marks::set::MarkSet;
use sheet::kinds::{Sheet, Strike};
use std::ops::{Add, Range};
use std::{fmt, io};
use tables::bits::BitTable;
use tables::pairs::PairTable;
use trials::agreed::Agreed;
use trials::sheets::sheet;

// How many agreements and marks are left, and of how many co-prunings.
#[derive(Clone, Copy, Default)]
pub struct Left {
    cases: usize,
    agreements: usize,
    marks: usize,
}

impl Add for Left {
    type Output = Left;

    fn add(self, other: Left) -> Left {
        Left {
            cases: self.cases.saturating_add(other.cases),
            agreements: self.agreements.saturating_add(other.agreements),
            marks: self.marks.saturating_add(other.marks),
        }
    }
}

impl fmt::Display for Left {
    fn fmt<W: fmt::Write>(&self, f: &mut fmt::Formatter<W>) -> fmt::Result {
        let Left {
            cases,
            agreements,
            marks,
        } = *self;
        write!(
            f,
            "{agreements} agreements and {marks} marks left in {cases} cases"
        )
    }
}

// Prints what is left, if everything is as the listing says. As in the program of the ceilings, and not shared: nothing can
// be proved of what is printed.
pub fn show(rt: &HostRuntime, left: Option<Left>) -> io::Result<()> {
    match left {
        Some(left) => println!(rt; " {left}"),
        None => println!(rt; " DIFFERS"),
    }
}

// What a co-pruned table has left, if it is what must be left, agreement by agreement and mark by mark.
fn compared<S: Sheet>(table: &S, left: MarkSet, ends: usize, must: &Agreed<12>) -> Option<Left> {
    let marks = table.marks();
    let same = (0..12).all(|i| {
        left.has(i) == (i < marks && degree(must, i) >= ends)
            && (i..12).all(|j| table.agree(i, j) == must.has(i, j))
    });
    let agreements = (0..12u32)
        .map(|i| (i..12).filter(|j| table.agree(i, *j)).count())
        .fold(0, usize::saturating_add);
    same.then_some(Left {
        cases: 1,
        agreements,
        marks: left.count() as usize,
    })
}

// Co-prunes a table and compares it with the listing.
fn pruned<S: Strike>(table: &mut S, all: &Agreed<12>, bounds: Bounds) -> Option<Left> {
    let Bounds { k, floor } = bounds;
    let mut left = MarkSet::empty();
    let mut marks = [0; 128];
    let mut pairs = [Pair { a: 0, b: 0 }; 66];
    co_prune(table, k, floor, &mut left, &mut marks, &mut pairs).ok()?;
    compared(table, left, bounds.ends(), &bounds.prune(all))
}

// Co-prunes a sheet in both kinds of table.
fn left_of<S: Sheet>(sheet: &S, all: &Agreed<12>, bounds: Bounds) -> Option<Left> {
    let mut bits = BitTable::copy_of(sheet);
    let mut pairs = PairTable::copy_of(sheet).ok()?;
    Some(pruned(&mut bits, all, bounds)? + pruned(&mut pairs, all, bounds)?)
}

// Co-prunes the sheet of some agreements for each floor.
pub fn left_for(marks: u32, all: &Agreed<12>, k: u32, floors: Range<u32>) -> Option<Left> {
    let mut words = [0; 12];
    let sheet = sheet(&mut words, marks, |i, j| all.has(i, j)).ok()?;
    let mut total = Left::default();
    for floor in floors {
        total = total + left_of(&sheet, all, Bounds { k, floor })?;
    }
    Some(total)
}
