//! What the arguments of a command line request.
#![tactic(auto)]

pub mod command_words;
pub mod merge_words;
