//! Sheets of marks: what every kind of sheet answers, and the sheet whose agreements are entered one by one.
#![tactic(auto)]

pub mod entry;
pub mod kinds;
pub mod two;
