//! Checking a file against a schema: the report on the file, from the bytes of both.
#![tactic(auto)]

pub mod check;
pub mod laws;
