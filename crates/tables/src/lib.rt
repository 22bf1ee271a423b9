//! Tables that own their words: copies of a sheet, whose agreements can be struck.
#![tactic(auto)]

pub mod bits;
pub mod laws;
pub mod pairs;
