// The pair rule: besides the chosen marks, a k-plex has at most those that one of two chosen marks may still miss, those
// that the other may, and the candidates that agree with both.
ghost use Rattle.ceiling.specs.Formulas.{by_pair};
ghost use Rattle.ceiling.proofs.Lawful.{pair_lawful};

use crate::asked::Asked;
use crate::rules::CeilingRule;
use marks::set::MarkSet;
use tables::bits::BitTable;

mod passes;
mod room;

#[derive(Clone, Copy)]
pub struct PairRule;

impl CeilingRule for PairRule {
    ghost number = { λ _. by_pair 128 };

    ghost lawful = { λ rule. pair_lawful };

    fn ceiling(&self, k: u32, table: &BitTable, chosen: MarkSet, candidates: MarkSet) -> u32 {
        let asked = Asked::of(k, table, chosen, candidates);
        asked.smallest_pair().unwrap_or(asked.all_marks())
    }
}
