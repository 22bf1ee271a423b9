//! Co-pruning: strikes the agreements that no k-plex of more than a number of marks can use.
#![tactic(auto)]

mod limits;
pub mod look;
pub mod prune;
pub mod refusal;
pub mod rows;
mod sweep;
mod waiting;
