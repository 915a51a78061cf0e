//! The findings of a file according to its schema: those of its instances one by one, then those of the
//! schema's rules. For a file without findings, the rows of its population and its weak pins.
#![tactic(auto)]

pub mod checked_file;
pub mod findings;
pub mod laws;
pub mod rows;
mod rule_pins;
pub mod rules;
