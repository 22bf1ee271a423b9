// The smaller of two rules' numbers.
ghost use Rattle.ceiling.specs.Rules.{smaller};
ghost use Rattle.ceiling.proofs.Lawful.{smaller_lawful};

use crate::rules::CeilingRule;
use marks::set::MarkSet;
use tables::bits::BitTable;

// Any two rules, by value; it is a rule again.
#[derive(Clone, Copy, Drop)]
pub struct Smaller<A, B> {
    pub first: A,
    pub second: B,
}

impl<A: CeilingRule, B: CeilingRule> CeilingRule for Smaller<A, B> {
    ghost number = { λ rule. smaller (A.CeilingRule.number rule.first) (B.CeilingRule.number rule.second) };

    ghost lawful = { λ rule. smaller_lawful _ _ (A.CeilingRule.lawful rule.first) (B.CeilingRule.lawful rule.second) };

    fn ceiling(&self, k: u32, table: &BitTable, chosen: MarkSet, candidates: MarkSet) -> u32 {
        let first = self.first.ceiling(k, table, chosen, candidates);
        let second = self.second.ceiling(k, table, chosen, candidates);
        first.min(second)
    }
}
