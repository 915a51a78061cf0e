//! Tokens of EXPRESS text (ISO 10303-11), read one by one.
//!
//! Nothing here allocates: tokens are slices of the text.
#![tactic(auto)]

mod fronts;
pub mod laws;
mod layout;
pub mod lexer;
pub mod literal;
pub mod marks;
pub mod token;
