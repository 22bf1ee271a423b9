//! What a step of the search asks of one open branch: its candidates trimmed, the mark to split it by, and the k-plex test.
#![tactic(auto)]

mod agreeing;
pub mod branches;
mod joining;
mod opened;
pub mod plexes;
mod splitting;
