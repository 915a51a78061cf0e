//! What expressions can look up in a population and in its schema (ISO 10303-11, 12).
#![tactic(auto)]

pub mod attributes;
pub mod formulas;
pub mod items;
pub mod setting;
pub mod types;
