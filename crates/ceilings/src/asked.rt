// Asking the rules, and comparing what they answer.
use crate::plain::Asked;
use marks::set::MarkSet;
use rule::degree::DegreeRule;
use rule::pair::PairRule;
use rule::rules::CeilingRule;
use rule::smaller::Smaller;
use std::ops::Add;
use std::{fmt, io};
use tables::bits::BitTable;

// The numbers of the rules, added up over some cases.
#[derive(Clone, Copy, Default)]
pub struct Found {
    cases: u32,
    applied: u32,
    degree: u32,
    pair: u32,
    smaller: u32,
}

impl Add for Found {
    type Output = Found;

    fn add(self, other: Found) -> Found {
        Found {
            cases: self.cases.saturating_add(other.cases),
            applied: self.applied.saturating_add(other.applied),
            degree: self.degree.saturating_add(other.degree),
            pair: self.pair.saturating_add(other.pair),
            smaller: self.smaller.saturating_add(other.smaller),
        }
    }
}

impl fmt::Display for Found {
    fn fmt<W: fmt::Write>(&self, f: &mut fmt::Formatter<W>) -> fmt::Result {
        let Found {
            degree,
            pair,
            smaller,
            ..
        } = *self;
        write!(f, "degree {degree}, pair {pair}, smaller {smaller}")
    }
}

// Prints the numbers, if every one is as it must be.
pub fn show(rt: &HostRuntime, found: Option<Found>) -> io::Result<()> {
    show_numbers(rt, found)?;
    println!(rt)
}

// The same, and of how many cases, and of how many in which the rules apply.
pub fn show_cases(rt: &HostRuntime, found: Option<Found>) -> io::Result<()> {
    show_numbers(rt, found)?;
    let Found { cases, applied, .. } = found.unwrap_or_default();
    println!(rt; "; {cases} cases, the rules apply in {applied}")
}

// As in the program of the prunings, and not shared: nothing can be proved of what is printed.
fn show_numbers(rt: &HostRuntime, found: Option<Found>) -> io::Result<()> {
    match found {
        Some(found) => print!(rt; " {found}"),
        None => print!(rt; " DIFFERS"),
    }
}

// What the rules answer to one question. The pile of three has a rule twice, so it must answer as the smaller of both.
pub fn answers(k: u32, table: &BitTable, chosen: MarkSet, candidates: MarkSet) -> Option<Found> {
    let both = Smaller {
        first: DegreeRule,
        second: PairRule,
    };
    let pile = Smaller {
        first: PairRule,
        second: both,
    };
    let smaller = both.ceiling(k, table, chosen, candidates);
    let same = pile.ceiling(k, table, chosen, candidates) == smaller;
    same.then_some(Found {
        cases: 1,
        applied: 0,
        degree: DegreeRule.ceiling(k, table, chosen, candidates),
        pair: PairRule.ceiling(k, table, chosen, candidates),
        smaller,
    })
}

// What the rules answer about marks below twelve, if it is as the plain computation says.
pub fn compared(table: &BitTable, asked: Asked) -> Option<Found> {
    let found = answers(
        asked.k,
        table,
        MarkSet::from_words([asked.chosen, 0, 0, 0]),
        MarkSet::from_words([asked.candidates, 0, 0, 0]),
    )?;
    let applies = asked.applies();
    let (degree, pair) = if applies {
        (asked.by_degree(), asked.by_pair())
    } else {
        (asked.all(), asked.all())
    };
    let same = found.degree as usize == degree
        && found.pair as usize == pair
        && found.smaller as usize == degree.min(pair);
    same.then_some(Found {
        applied: u32::from(applies),
        ..found
    })
}
