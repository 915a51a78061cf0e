//! The survey of an expression: the reasons why it isn't checked, and the derived attributes that
//! it may use (ISO 10303-11, 12).
#![tactic(auto)]

mod atoms;
mod comparisons;
mod context;
mod notes;
pub mod survey;
mod variables;
mod walk;
