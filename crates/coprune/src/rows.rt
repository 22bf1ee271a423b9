// What the rows of a sheet say of its agreements.
ghost use Rattle.std.specs.Prelude.{◌≡◌};
ghost use Rattle.marks.specs.Members.{members};
ghost use Rattle.pruning.specs.Pruned.{offends, left_marks, agreements};

use crate::limits::Limits;
use marks::set::MarkSet;
use sheet::kinds::{Sheet, neighbours};

// Whether the agreement of marks i and j may not stay: an end has too few agreements, or they share too few marks.
pub(crate) fn is_offending<S: Sheet>(sheet: &S, limits: Limits, i: u32, j: u32) -> bool
    ensures { result ≡ offends (S.Sheet.meaning sheet.now).marks limits.ends limits.shared (S.Sheet.meaning sheet.now).agrees i j }
{
    let of_i = neighbours(sheet, i);
    let of_j = neighbours(sheet, j);
    limits.unmet(of_i.count(), of_j.count(), of_i.and(of_j).count())
}

// The marks that have at least so many agreements.
pub(crate) fn marks_with<S: Sheet>(sheet: &S, ends: u32) -> MarkSet
    ensures { members result ≡ left_marks (S.Sheet.meaning sheet.now).marks ends (S.Sheet.meaning sheet.now).agrees }
{
    MarkSet::below(sheet.marks()).filter(|i| neighbours(sheet, i).count() >= ends)
}

// How many agreements there are, each counted at its lower mark.
pub fn count_agreements<S: Sheet>(sheet: &S) -> u32
    ensures { result ≡ agreements (S.Sheet.meaning sheet.now).marks (S.Sheet.meaning sheet.now).agrees }
{
    // kept from mark to mark: made anew for each, the marks below it take more than twice as long
    let mut seen = MarkSet::empty();
    let mut count = 0;
    for i in 0..sheet.marks() {
        seen = seen.with(i);
        count += neighbours(sheet, i).minus(seen).count();
    }
    count
}
