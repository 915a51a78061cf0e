//! The meaning of a schema's types (ISO 10303-11): subtypes, attributes, the parts that aren't
//! checked, and the laws of these.
#![tactic(auto)]

pub mod laws;
pub mod unchecked;
