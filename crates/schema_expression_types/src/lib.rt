//! The possible values of an expression, as a set of types, and the types that are named in tests
//! (ISO 10303-11, 12 and 15.25).
#![tactic(auto)]

pub mod atoms;
pub mod meanings;
pub mod paths;
pub mod references;
pub mod scope;
pub mod sets;
pub mod type_strings;
pub mod variables;
