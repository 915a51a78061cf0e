//! The data that values of a population are in expressions, and operations on them: literals,
//! operators, functions of the language, and variables of queries (ISO 10303-11, 7.5, 8, 12 and
//! 15).
#![tactic(auto)]

pub mod contents;
pub mod copies;
pub mod element;
pub mod indices;
pub mod laws;
pub mod literals;
pub mod operations;
pub mod part;
pub mod scalars;
pub mod shape;
pub mod types;
pub mod values;
pub mod variables;
