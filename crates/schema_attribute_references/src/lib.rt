//! The attributes that references take, and that uniqueness rules name
//! (ISO 10303-11, 12.7.3, 12.7.4 and 9.2.2.1).
#![tactic(auto)]

mod choice;
mod collection;
mod entities;
mod numbers;
pub mod references;
pub mod schema_facts;
pub mod taken_attributes;
pub mod unique_rule_names;
