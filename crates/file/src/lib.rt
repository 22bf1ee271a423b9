//! Files of words: the check, and the sheets that read a checked file where its words stand.
#![tactic(auto)]

pub mod check;
mod dome;
mod faults;
pub mod laws;
pub mod measured;
pub mod pairs;
mod words;
