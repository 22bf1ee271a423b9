// What single calls answer: refusals, copies into a pair table, and strikes.
use coprune::look::Pair;
use coprune::prune::co_prune;
use coprune::refusal::PruneRefusal;
use marks::set::MarkSet;
use sheet::entry::EntryRefusal;
use sheet::kinds::Strike;
use std::io;
use tables::bits::BitTable;
use tables::pairs::{PairTable, TableRefusal};
use trials::sheets::{sheet, table};

// The number that a call answers, accepted or refused. Only numbers are printed, so a refusal is its number in this file,
// of whichever call it is.
fn number(answer: Result<u32, u32>) -> u32 {
    answer.unwrap_or_else(|refusal| refusal)
}

// Of three marks that are a path.
fn on_path(i: u32, j: u32) -> bool {
    i < 2 && j == i + 1
}

// Co-prunes five marks and two agreements, in so many places.
fn pruned(k: u32, floor: u32, mark_places: usize, pair_places: usize) -> Result<u32, u32> {
    let mut left = MarkSet::empty();
    let mut marks = [0; 5];
    let mut pairs = [Pair { a: 0, b: 0 }; 2];
    let mut table = table(5, on_path).map_err(EntryRefusal::number)?;
    co_prune(
        &mut table,
        k,
        floor,
        &mut left,
        &mut marks[0..mark_places.min(5)],
        &mut pairs[0..pair_places.min(2)],
    )
    .map_err(PruneRefusal::number)
}

// k, the places and the floor at and past their limits.
pub fn refusals(rt: &HostRuntime) -> io::Result<()> {
    let accepted = number(pruned(16, 128, 5, 2));
    let low = number(pruned(0, 129, 4, 1));
    let high = number(pruned(17, 0, 5, 2));
    let few_marks = number(pruned(1, 129, 4, 1));
    let few_pairs = number(pruned(1, 129, 5, 1));
    let floor = number(pruned(1, 129, 5, 2));
    println!(rt;
        "accepted {accepted}, k 0 {low}, k 17 {high}, 4 places for marks {few_marks}, 1 for pairs {few_pairs}, floor 129 {floor}"
    )
}

// Copies a sheet of so many marks that all agree, and one mark more that agrees with mark 0, into a pair table.
fn copied(marks: u32) -> Result<u32, u32> {
    let mut words = [0; 384];
    let agrees = |i: u32, j: u32| j < marks || i == 0;
    let sheet = sheet(&mut words, marks.saturating_add(1), agrees).map_err(EntryRefusal::number)?;
    PairTable::copy_of(&sheet)
        .map(|_| 0)
        .map_err(TableRefusal::number)
}

pub fn copies(rt: &HostRuntime) -> io::Result<()> {
    let most = number(copied(91));
    let more = number(copied(92));
    println!(rt; "copied into a pair table: 4096 agreements {most}, 4187 agreements {more}")
}

// Strikes what is there, what is there no more, a mark with itself and a mark outside, and asks for what is left.
fn struck<S: Strike>(rt: &HostRuntime, name: &str, table: &mut S) -> io::Result<()> {
    let once = table.strike(1, 0);
    let again = table.strike(0, 1);
    let itself = table.strike(2, 2);
    let outside = table.strike(2, 5);
    let gone = table.agree(0, 1);
    let other = table.agree(1, 2);
    println!(rt;
        "{name}: struck {once}, again {again}, itself {itself}, outside {outside}; agree 0 and 1 {gone}, 1 and 2 {other}"
    )
}

pub fn strikes(rt: &HostRuntime) -> io::Result<()> {
    let mut words = [0; 5];
    let Ok(sheet) = sheet(&mut words, 5, on_path) else {
        return println!(rt; "five marks on a path: NO SHEET");
    };
    struck(rt, "bit table", &mut BitTable::copy_of(&sheet))?;
    let Ok(mut pairs) = PairTable::copy_of(&sheet) else {
        return println!(rt; "pair table: NO TABLE");
    };
    struck(rt, "pair table", &mut pairs)
}
