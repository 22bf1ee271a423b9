//! Theory of co-pruning: which agreements no larger k-plex can use, and why it is safe to strike them.
#![tactic(auto)]

ghost use Rattle.pruning.specs.Laws.{CoPruning};

// The largest good set of agreements exists, is unique, and loses no k-plex that is large enough.
pub fn co_pruning_is_safe()
    ensures { CoPruning }
{}
