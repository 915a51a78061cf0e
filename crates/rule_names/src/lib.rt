//! Tables that are built once from a schema to evaluate its expressions, and what names and strings
//! in expressions refer to (ISO 10303-11, 12, 15.25 and 8.4.1).
#![tactic(auto)]

pub mod declared_types;
pub mod items;
mod qualified_names;
pub mod tables;
pub mod types;
