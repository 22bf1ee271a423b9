//! Ceiling rules: how many marks a k-plex has at most that contains one set of marks and lies in it and another.
#![tactic(auto)]

mod asked;
pub mod degree;
pub mod pair;
pub mod rules;
pub mod smaller;
