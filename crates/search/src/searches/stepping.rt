// A step of the search.
ghost use Rattle.std.specs.Prelude.{◌<◌};
ghost use Rattle.plex.specs.Words.{holds};
ghost use Rattle.tables.specs.Meanings.{bit_meaning};
ghost use Rattle.searching.specs.Calls.{Does, Step};
ghost use Rattle.searching.specs.Steps.{Stepped};
ghost use Rattle.search.specs.Outcomes.{FallsOut};
ghost use Rattle.search.specs.View.{view};

use super::Search;
use branch::branches::Branch;
use branch::plexes::is_kplex;
use held::group::Held;
use marks::set::MarkSet;
use rule::rules::CeilingRule;
use tables::bits::BitTable;

// What becomes of a branch. An enum and no closure: there are just these three.
#[derive(Clone, Copy)]
pub(crate) enum Outcome {
    // nothing larger than the group held lies in it
    Closes,
    // all its marks together are a larger k-plex
    Takes,
    // it is split by a mark
    Splits(u32),
}

// What becomes of a branch that was trimmed; `held` is the size of the group held.
fn outcome_of<R: CeilingRule>(
    rule: &R,
    k: u32,
    table: &BitTable,
    held: u32,
    branch: Branch,
) -> Outcome
    ensures { FallsOut (R.CeilingRule.number rule.now) k (bit_meaning table.now).agrees held (holds branch.chosen) (holds branch.candidates) result }
{
    let chosen = MarkSet::from_words(branch.chosen);
    let candidates = MarkSet::from_words(branch.candidates);
    if chosen.count() + candidates.count() <= held
        || rule.ceiling(k, table, chosen, candidates) <= held
    {
        return Outcome::Closes;
    }
    if is_kplex(table, k, chosen.or(candidates)) {
        return Outcome::Takes;
    }
    branch
        .split_mark(k, table)
        .map_or(Outcome::Closes, Outcome::Splits)
}

impl<R: CeilingRule> Search<R> {
    // One step: 1, or 0 where the search is settled, as the rules say.
    pub fn step(&mut self) -> u32
        ensures { Does (view R.CeilingRule.number self.old) Step result (view R.CeilingRule.number self.new) }
    {
        if self.is_settled() {
            return 0;
        }
        self.take_step();
        1
    }

    // Looks at the newest branch.
    fn take_step(&mut self)
        requires { 0 < self.old.count }
        ensures { Stepped (view R.CeilingRule.number self.old) (view R.CeilingRule.number self.new) }
    {
        let at = self.count - 1;
        let k = self.k;
        let held = self.held.count();
        self.branches[at].trim(k, &self.table, held);
        let branch = self.branches[at];
        self.taken = self.taken.saturating_add(1);
        match outcome_of(&self.rule, k, &self.table, held, branch) {
            Outcome::Closes => {
                self.count = at;
            }
            Outcome::Takes => {
                let chosen = MarkSet::from_words(branch.chosen);
                self.held = Held::of(chosen.or(MarkSet::from_words(branch.candidates)));
                self.count = at;
            }
            Outcome::Splits(u) => {
                let rest = MarkSet::from_words(branch.candidates).without(u).words();
                let chosen = MarkSet::from_words(branch.chosen).with(u).words();
                self.branches[at].candidates = rest;
                self.branches[at + 1] = Branch {
                    chosen,
                    candidates: rest,
                };
                self.count = at + 2;
            }
        }
    }
}
