// Runs of steps.
ghost use Rattle.std.specs.Prelude.{◌≡◌, OnErr};
ghost use Rattle.searching.specs.Calls.{Does, Run};
ghost use Rattle.search.specs.Runs.{Runs};
ghost use Rattle.search.specs.View.{view};

use super::Search;
use rule::rules::CeilingRule;
use searching::refusal::SearchRefusal;

// The largest budget of a run.
const LARGEST_BUDGET: u32 = 65_536;

impl<R: CeilingRule> Search<R> {
    // Up to so many steps, until the search is settled; says how many were taken.
    pub fn run(&mut self, budget: u32) -> Result<u32, SearchRefusal>
        ensures does { Does (view R.CeilingRule.number self.old) (Run budget) result (view R.CeilingRule.number self.new) }
        ensures unchanged { OnErr result (self.new ≡ self.old) }
    {
        self.run_within(budget, LARGEST_BUDGET)
    }

    // The same, with the largest budget that is allowed: a parameter, so that the proof is about any limit.
    fn run_within(&mut self, budget: u32, largest: u32) -> Result<u32, SearchRefusal>
        ensures runs { Runs largest budget (view R.CeilingRule.number self.old) result (view R.CeilingRule.number self.new) }
        ensures unchanged { OnErr result (self.new ≡ self.old) }
    {
        if !(1..=largest).contains(&budget) {
            return Err(SearchRefusal::BudgetOutOfRange);
        }
        for taken in 0..budget {
            if self.step() == 0 {
                return Ok(taken);
            }
        }
        Ok(budget)
    }
}
