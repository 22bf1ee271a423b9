//! The group that a search holds, the lists that are offered to it, and how many steps it can take.
#![tactic(auto)]

pub mod group;
pub mod offered;
pub mod steps;
