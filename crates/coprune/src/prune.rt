// Co-pruning a sheet.
ghost use Rattle.std.specs.Prelude.{◌≡◌, length, OnOk, OnErr};
ghost use Rattle.marks.specs.Members.{members};
ghost use Rattle.coprune.specs.Answers.{pair_places, CoPrunes, MayHoldAnything};
ghost use Rattle.coprune.specs.Coprune.{Strikes, Ends};

use crate::limits::Limits;
use crate::look::Pair;
use crate::refusal::PruneRefusal;
use crate::rows::{count_agreements, marks_with};
use crate::sweep::{drain, sweep};
use crate::waiting::Waiting;
use marks::set::MarkSet;
use sheet::kinds::{Sheet, Strike};

// Strikes the agreements that no k-plex of more than floor marks can use, and puts the marks that are left into a set.
// The spaces are room for what is to be looked at again, and may hold anything afterwards. The set and the spaces are lent one by
// one, as the rules say: a contract could not tell what a struct of them holds afterwards.
pub fn co_prune<S: Strike>(
    sheet: &mut S,
    k: u32,
    floor: u32,
    left: &mut MarkSet,
    mark_space: &mut [u32],
    pair_space: &mut [Pair],
) -> Result<u32, PruneRefusal>
    ensures prunes { CoPrunes (S.Sheet.meaning sheet.old) k floor (length mark_space.old) (length pair_space.old) result (S.Sheet.meaning sheet.new) (members left.new) }
    ensures lasts { S.Strike.lasting sheet.new ≡ S.Strike.lasting sheet.old }
    ensures unchanged { OnErr result ((sheet.new ≡ sheet.old) × (left.new ≡ left.old) × (mark_space.new ≡ mark_space.old) × (pair_space.new ≡ pair_space.old)) }
    ensures spaces { OnOk result (MayHoldAnything mark_space.new × MayHoldAnything pair_space.new) }
{
    if !(1..=16).contains(&k) {
        return Err(PruneRefusal::KOutOfRange);
    }
    if mark_space.len() < sheet.marks() as usize {
        return Err(PruneRefusal::TooFewMarkPlaces);
    }
    if pair_space.len() < pair_places(sheet) as usize {
        return Err(PruneRefusal::TooFewPairPlaces);
    }
    if floor > 128 {
        return Err(PruneRefusal::FloorTooHigh);
    }
    let limits = Limits::for_floor(k, floor);
    let mut waiting = Waiting::over(mark_space, pair_space);
    strike_all(sheet, limits, &mut waiting);
    *left = marks_with(sheet, limits.ends);
    // an accepted call that has no other answer answers 0, as the rules say
    Ok(0)
}

// How many places the pairs that wait want: one for each agreement.
pub fn pair_places<S: Sheet>(sheet: &S) -> u32
    ensures { result ≡ pair_places (S.Sheet.meaning sheet.now) }
{
    count_agreements(sheet)
}

// Strikes until no agreement is left that may not stay.
fn strike_all<S: Strike>(sheet: &mut S, limits: Limits, waiting: &mut Waiting)
    ensures { Strikes S.Strike (Ends limits) sheet.old sheet.new }
{
    // each sweep says whether there is to be another
    while sweep(sheet, limits, waiting) {
        drain(sheet, limits, waiting);
    }
}
