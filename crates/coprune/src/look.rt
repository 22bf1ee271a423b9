// Looking at agreements again: those that may not stay are struck, and what a strike may have spoilt waits to be looked at.
ghost use Rattle.std.specs.Prelude.{◌≡◌, ◌+◌, ◌==◌};
ghost use Rattle.marks.specs.Members.{members};
ghost use Rattle.coprune.specs.Coprune.{Steps, Looks, LooksAmong};
ghost use Rattle.coprune.specs.Waiting.{SameRoom};

use crate::limits::Limits;
use crate::rows::is_offending;
use crate::waiting::{Next, Waiting};
use marks::set::MarkSet;
use sheet::kinds::{Sheet, Strike, neighbours};

// Two marks.
#[derive(Clone, Copy)]
pub struct Pair {
    pub a: u32,
    pub b: u32,
}

// Whether a number is one too low: it was enough before the last strike.
fn just_short(number: u32, needed: u32) -> bool
    ensures { result ≡ (number + 1 == needed) }
{
    needed.checked_sub(number) == Some(1)
}

// After a strike at mark i: it waits if it now has one agreement too few.
fn note_mark<S: Sheet>(sheet: &S, limits: Limits, i: u32, waiting: &mut Waiting)
    ensures { SameRoom waiting.old waiting.new }
{
    if just_short(neighbours(sheet, i).count(), limits.ends) {
        waiting.add(Next::Mark(i));
    }
}

// A pair waits if its marks now share one mark too few; the set is what they share.
fn note_pair(limits: Limits, pair: Pair, shared: MarkSet, waiting: &mut Waiting)
    ensures { SameRoom waiting.old waiting.new }
{
    if just_short(shared.count(), limits.shared) {
        waiting.add(Next::Pair(pair));
    }
}

// After a strike of a pair: a mark that agrees with both of its marks now shares one mark less with each of them.
fn note_pairs<S: Sheet>(sheet: &S, limits: Limits, pair: Pair, waiting: &mut Waiting)
    ensures { SameRoom waiting.old waiting.new }
{
    let of_a = neighbours(sheet, pair.a);
    let of_b = neighbours(sheet, pair.b);
    for w in of_a.and(of_b).rising() {
        let of_w = neighbours(sheet, w);
        note_pair(limits, Pair { a: pair.a, b: w }, of_a.and(of_w), waiting);
        note_pair(limits, Pair { a: pair.b, b: w }, of_b.and(of_w), waiting);
    }
}

// Strikes the agreement of two marks if it may not stay, and says whether it did.
pub(crate) fn look_at_pair<S: Strike>(
    sheet: &mut S,
    limits: Limits,
    pair: Pair,
    waiting: &mut Waiting,
) -> bool
    ensures { Steps S.Strike (Looks limits pair.a pair.b) sheet.old waiting.old result sheet.new waiting.new }
{
    if !sheet.agree(pair.a, pair.b) || !is_offending(sheet, limits, pair.a, pair.b) {
        return false;
    }
    sheet.strike(pair.a, pair.b);
    note_mark(sheet, limits, pair.a, waiting);
    note_mark(sheet, limits, pair.b, waiting);
    note_pairs(sheet, limits, pair, waiting);
    true
}

// Looks at the agreements of mark i with other marks, and says whether one was struck.
pub(crate) fn look_among<S: Strike>(
    sheet: &mut S,
    limits: Limits,
    i: u32,
    others: MarkSet,
    waiting: &mut Waiting,
) -> bool
    ensures { Steps S.Strike (LooksAmong limits i (members others)) sheet.old waiting.old result sheet.new waiting.new }
{
    // not by `any`, which would end at the first strike
    let mut struck = false;
    for j in others.rising() {
        struck |= look_at_pair(sheet, limits, Pair { a: i, b: j }, waiting);
    }
    struck
}
