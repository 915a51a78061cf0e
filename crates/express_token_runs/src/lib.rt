//! Tokens of EXPRESS schemas, runs of them, and skipped declarations (ISO 10303-11).
#![tactic(auto)]

pub mod names;
pub mod reader;
pub mod runs;
pub mod skipped_declarations;
pub mod tokens;
