//! Sets of marks: four 32-bit words by value, with a count that always equals the number of marks.
#![tactic(auto)]

pub mod set;
