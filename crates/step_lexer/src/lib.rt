//! Tokens of the exchange structure (ISO 10303-21), read one by one.
//!
//! This crate allocates no memory: tokens are slices of the text that is read.
#![tactic(auto)]

mod digits;
mod fronts;
pub mod laws;
mod layout;
pub mod lexer;
pub mod token;
mod words;
