//! The domain rules of a schema that are checked (ISO 10303-11, 9.1 and 9.2.2.2).
#![tactic(auto)]

pub mod list;
pub mod rule;
mod rules;
