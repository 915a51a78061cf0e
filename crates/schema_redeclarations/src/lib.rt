//! The declarations by which each entity declares and redeclares the explicit attributes of its
//! instances (ISO 10303-11, 9.2.1 and 9.2.3.4).
#![tactic(auto)]

mod derived_attributes;
mod explicit_attributes;
mod redeclared_attributes;
pub mod uses;
