// Sheets to be co-pruned.
use crate::left::{Left, left_for, show};
use std::io;
use trials::agreed::Agreed;
use trials::chance::Chance;

// A ring of five marks, and a path of four.
pub fn worked(rt: &HostRuntime) -> io::Result<()> {
    let ring = Agreed::ring(5);
    print!(rt; "pentagon, k 2, floor 3:")?;
    show(rt, left_for(5, &ring, 2, 3..4))?;
    print!(rt; "pentagon, k 2, floor 4:")?;
    show(rt, left_for(5, &ring, 2, 4..5))?;
    print!(rt; "pentagon, k 1, floor 2:")?;
    show(rt, left_for(5, &ring, 1, 2..3))?;
    let mut path = Agreed::none();
    for i in 0..3 {
        path.set(i, i + 1, true);
    }
    print!(rt; "path of four, k 2, floor 3:")?;
    show(rt, left_for(4, &path, 2, 3..4))
}

// Sheets of so many marks, of which each pair agrees in some tenths of all cases.
pub fn generated(rt: &HostRuntime, marks: u32) -> io::Result<()> {
    let mut chance = Chance::from_seed(marks);
    for tenths in [1u32, 4, 6, 8, 10] {
        let all = Agreed::by_chance(marks, tenths, &mut chance);
        print!(rt; "{marks} marks, {tenths} tenths:")?;
        show(rt, by_k(marks, &all))?;
    }
    Ok(())
}

// For every k, and every floor up to one at which nothing can be left.
fn by_k(marks: u32, all: &Agreed<12>) -> Option<Left> {
    let mut total = Left::default();
    for k in 1..17u32 {
        let end = marks.saturating_add(k).saturating_add(1);
        total = total + left_for(marks, all, k, 0..end)?;
    }
    Some(total)
}
