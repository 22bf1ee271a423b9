//! File words: how a file's words are laid out, what a good file is, and how a bad one is refused.
//! Theory, the types that its statements name, and the small functions that take a word apart.
#![tactic(auto)]

pub mod files;
pub mod laws;
pub mod layout;
