//! The search for a largest k-plex.
#![tactic(auto)]

pub mod refusal;
pub mod searches;
