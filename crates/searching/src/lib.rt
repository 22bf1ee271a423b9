//! Theory of the search: what making and each call do, and the law over every list of calls. Each function's contract is a theorem.
#![tactic(auto)]

ghost use Rattle.searching.specs.Law.{LawOverRuns};
ghost use Rattle.searching.specs.Facts.{FirstGroupStands, FewBranches, OffersAreTaken};
ghost use Rattle.searching.specs.Exactness.{MakingIsExact, CallsAreExact, ComputedIsTheSame};
ghost use Rattle.searching.specs.Examples.{WorkedExamples};

pub mod refusal;
pub mod tally;

// The group that is held first is a k-plex, none is larger than the top, and every larger one lies in the branch.
pub fn first_group_stands()
    ensures { FirstGroupStands }
{}

// The search that making leaves exists, there is one, and it is sound.
pub fn making_is_exact()
    ensures { MakingIsExact }
{}

// In every well-formed state each call has one answer and one state after, which is well formed. With a lawful rule it is sound if the
// state before was.
pub fn calls_are_exact()
    ensures { CallsAreExact }
{}

// The law, with a lawful rule: the group held is real, nothing larger than the ceiling exists, and the search ends in time with a largest
// group.
pub fn law_over_runs()
    ensures { LawOverRuns }
{}

// At most one branch more than there are marks is ever open.
pub fn branches_are_few()
    ensures { FewBranches }
{}

// A strictly rising list of marks is taken exactly when it is a k-plex of the sheet and larger than the group held.
pub fn offers_are_taken()
    ensures { OffersAreTaken }
{}

// What is computed for the examples is what the definitions say, and nothing else is.
pub fn computed_is_the_same()
    ensures { ComputedIsTheSame }
{}

// The pentagon and its neighbours.
pub fn worked_examples()
    ensures { WorkedExamples }
{}
