//! The commands of the program: what a command line does, over any store of files and any outputs.
#![tactic(auto)]

pub mod check;
pub mod command;
pub mod ending;
pub mod fault;
pub mod laws;
pub mod plain;
pub mod presets;
pub mod shrink;
pub mod verify;
