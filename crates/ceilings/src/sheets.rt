// Sheets about which the rules are asked.
use crate::asked::{Found, answers, compared, show, show_cases};
use crate::plain::Asked;
use marks::set::MarkSet;
use std::io;
use tables::bits::BitTable;
use trials::agreed::Agreed;
use trials::chance::Chance;
use trials::sheets::table;

// Asks about a ring of five marks, the sets given as bits.
fn about_ring(rt: &HostRuntime, k: u32, chosen: u32, candidates: u32) -> io::Result<()> {
    let agreed = Agreed::ring(5);
    print!(rt; "pentagon, k {k}, S {chosen:05b}, C {candidates:05b}:")?;
    let Ok(table) = table(5, |i, j| agreed.has(i, j)) else {
        return println!(rt; " NO TABLE");
    };
    let asked = Asked {
        agreed: &agreed,
        k,
        chosen,
        candidates,
    };
    show(rt, compared(&table, asked))
}

pub fn worked(rt: &HostRuntime) -> io::Result<()> {
    for k in [0u32, 1, 2, 3, 16, 17] {
        about_ring(rt, k, 0b00000, 0b11111)?;
        about_ring(rt, k, 0b00001, 0b11110)?;
        about_ring(rt, k, 0b00011, 0b11100)?;
        about_ring(rt, k, 0b00011, 0b11111)?;
        about_ring(rt, k, 0b00101, 0b11010)?;
        about_ring(rt, k, 0b11111, 0b11111)?;
    }
    Ok(())
}

// 128 marks that all agree but for each second one with the last: marks of all four words.
pub fn far_apart(rt: &HostRuntime) -> io::Result<()> {
    let Ok(table) = table(128, |i, j| j < 127 || i % 2 == 0) else {
        return println!(rt; "128 marks: NO TABLE");
    };
    let chosen = MarkSet::from_words([1, 2, 4, 0x8000_0000]);
    let all = MarkSet::from_words([0xFFFF_FFFF; 4]);
    for k in [1u32, 2, 3] {
        print!(rt; "128 marks, k {k}:")?;
        show(rt, answers(k, &table, chosen, all))?;
    }
    Ok(())
}

// Sheets of so many marks, of which each pair agrees in some tenths of all cases.
pub fn generated(rt: &HostRuntime, marks: u32) -> io::Result<()> {
    let mut chance = Chance::from_seed(marks);
    for tenths in [3u32, 6, 9] {
        let agreed = Agreed::by_chance(marks, tenths, &mut chance);
        print!(rt; "{marks} marks, {tenths} tenths:")?;
        let Ok(table) = table(marks, |i, j| agreed.has(i, j)) else {
            return println!(rt; " NO TABLE");
        };
        show_cases(rt, about(marks, &table, &agreed, chance))?;
    }
    Ok(())
}

// Marks by chance, of those of a mask.
fn some_marks(chance: &mut Chance, within: u32) -> u32 {
    (chance.next().unwrap() >> 8) & within
}

// Asks about sets of marks, half of them small, for each k.
fn about(marks: u32, table: &BitTable, agreed: &Agreed<12>, mut chance: Chance) -> Option<Found> {
    let within = (1 << marks.min(12)) - 1;
    let mut total = Found::default();
    for k in [0u32, 1, 2, 3, 4, 5, 16, 17] {
        for turn in 0..24 {
            let chosen = some_marks(&mut chance, within);
            let candidates = some_marks(&mut chance, within);
            let some = some_marks(&mut chance, within);
            let asked = Asked {
                agreed,
                k,
                chosen: if turn % 2 == 0 { chosen & some } else { chosen },
                candidates,
            };
            total = total + compared(table, asked)?;
        }
    }
    Some(total)
}
