// The degree rule: a k-plex has at most k marks more than any of its marks agrees with.
ghost use Rattle.std.specs.Prelude.{◌≡◌, ◌<◌, true};
ghost use Rattle.plex.specs.Sets.{card};
ghost use Rattle.ceiling.specs.Formulas.{by_degree, in_range};
ghost use Rattle.marks.specs.Members.{members};
ghost use Rattle.rule.specs.Passes.{Degrees};
ghost use Rattle.rule.specs.Questions.{agreed, Finds};
ghost use Rattle.ceiling.proofs.Lawful.{degree_lawful};

use crate::asked::Asked;
use crate::rules::{CeilingRule, in_range};
use marks::set::MarkSet;
use sheet::kinds::neighbours;
use tables::bits::BitTable;

#[derive(Clone, Copy)]
pub struct DegreeRule;

impl CeilingRule for DegreeRule {
    ghost number = { λ _. by_degree 128 };

    ghost lawful = { λ rule. degree_lawful };

    fn ceiling(&self, k: u32, table: &BitTable, chosen: MarkSet, candidates: MarkSet) -> u32 {
        let asked = Asked::of(k, table, chosen, candidates);
        asked.smallest_degree().unwrap_or(asked.all_marks())
    }
}

impl Asked<'_> {
    // The smallest number of a chosen mark, in one pass over their rows; none where the rule does not apply.
    fn smallest_degree(self) -> Option<u32>
        ensures passes { in_range self.entry.k ≡ true → 0 < card 128 (members self.entry.chosen) → Degrees self.entry.k (agreed self.entry) (members self.entry.chosen) (members self.entry.others) result }
        ensures finds { Finds by_degree self.entry result }
    {
        if !in_range(self.k) || self.chosen.is_empty() {
            return None;
        }
        let all = self.chosen.or(self.others);
        let mut smallest = u32::MAX;
        for u in self.chosen.rising() {
            let row = neighbours(self.table, u);
            if self.chosen.minus(row).count() > self.k {
                return None;
            }
            smallest = smallest.min(self.k + all.and(row).count());
        }
        Some(smallest)
    }
}
