//! The parts of declarations of EXPRESS schemas (ISO 10303-11): bounds, data types and domain
//! rules.
#![tactic(auto)]

pub mod bounds;
mod builders;
pub mod data_types;
pub mod rules;
