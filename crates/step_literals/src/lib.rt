//! Literals of the exchange structure (ISO 10303-21): how numbers, strings, binaries and words are
//! spelt, and their values.
//!
//! This crate allocates no memory: literals are slices of the text that is read.
#![tactic(auto)]

pub mod binaries;
pub mod bytes;
mod characters;
mod clean;
pub mod directives;
pub mod fault;
pub mod laws;
pub mod literal;
pub mod numbers;
pub mod strings;
