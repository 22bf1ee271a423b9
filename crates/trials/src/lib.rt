//! What the programs of many cases share: numbers that look like chance, plain notes of agreements, and sheets of them.
#![tactic(auto)]

pub mod agreed;
pub mod chance;
pub mod sheets;
