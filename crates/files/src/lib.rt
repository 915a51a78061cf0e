//! The files of a command: their roles, access by path, a source read to its end, and why a file isn't read
//! or written, with the line that reports it.
#![tactic(auto)]

pub mod fault;
pub mod read;
pub mod store;
