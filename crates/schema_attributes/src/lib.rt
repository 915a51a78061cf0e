//! The declarations and redeclarations of the attributes of a schema's entities, by name
//! (ISO 10303-11, 9.2.1 and 9.2.3.4).
#![tactic(auto)]

mod attribute_collection;
pub mod attributes;
mod counts;
pub mod declaration;
pub mod redeclarations;
mod row;
