//! The parts of a schema that aren't checked, with reasons (ISO 10303-11, 9 and 12).
#![tactic(auto)]

mod declarations;
pub mod derivations;
mod derived_attributes;
mod explicit_attributes;
pub mod findings;
pub mod judgement;
pub mod list;
pub mod list_parts;
pub mod reasons;
pub mod rules;
mod uniqueness_rules;
