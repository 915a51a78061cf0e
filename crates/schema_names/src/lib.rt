//! The names of a schema (ISO 10303-11, 10): a number for the declaration of each name, and graphs
//! on these numbers.
#![tactic(auto)]

pub mod attribute_names;
pub mod capital_names;
pub mod declaration_graphs;
mod enumeration_items;
pub mod laws;
pub mod names;
