//! The typed population of an exchange structure by a schema, or its findings (ISO 10303-21, 11).
#![tactic(auto)]

mod instance_values;
pub mod populate;
