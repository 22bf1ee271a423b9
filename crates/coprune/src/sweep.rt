// Going over all agreements, and over those that wait.
ghost use Rattle.coprune.specs.Coprune.{Strikes, Steps, Wears, Worn, Sweeps};
ghost use Rattle.coprune.specs.Waiting.{NoneWaits};

use crate::limits::Limits;
use crate::look::{look_among, look_at_pair};
use crate::waiting::{Next, Waiting};
use marks::set::MarkSet;
use sheet::kinds::{Sheet, Strike, neighbours};

// Looks at every agreement once, at its lower mark, and says whether one was struck.
pub(crate) fn sweep<S: Strike>(sheet: &mut S, limits: Limits, waiting: &mut Waiting) -> bool
    ensures { Strikes S.Strike (Sweeps limits result) sheet.old sheet.new }
{
    // kept from mark to mark: made anew for each, the marks below it take more than twice as long
    let mut seen = MarkSet::empty();
    // not by `any`, which would end at the first strike
    let mut struck = false;
    for i in 0..sheet.marks() {
        seen = seen.with(i);
        let above = neighbours(sheet, i).minus(seen);
        struck |= look_among(sheet, limits, i, above, waiting);
    }
    struck
}

// Looks at what has waited longest, which waits no more.
fn look_at<S: Strike>(sheet: &mut S, limits: Limits, next: Next, waiting: &mut Waiting) -> bool
    ensures { Steps S.Strike (Worn limits) sheet.old waiting.old result sheet.new waiting.new }
{
    match next {
        Next::Mark(i) => {
            let others = neighbours(sheet, i);
            look_among(sheet, limits, i, others, waiting)
        }
        Next::Pair(pair) => look_at_pair(sheet, limits, pair, waiting),
    }
}

// Looks at all that waits, and at what comes to wait meanwhile.
pub(crate) fn drain<S: Strike>(sheet: &mut S, limits: Limits, waiting: &mut Waiting)
    ensures wears { Strikes S.Strike (Wears limits) sheet.old sheet.new }
    ensures over { NoneWaits waiting.new }
{
    // no `for`: more comes to wait meanwhile
    while let Some(next) = waiting.next() {
        look_at(sheet, limits, next, waiting);
    }
}
