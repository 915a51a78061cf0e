//! Values of instances of an exchange structure (ISO 10303-21), and when two of them agree.
//!
//! Values are compared by meaning: a literal by its value, a LIST or an ARRAY position by position,
//! a SET or a BAG regardless of the order of its members.
#![tactic(auto)]

pub mod cell;
pub mod labels;
pub mod laws;
pub mod literals;
pub mod normal;
mod place;
pub mod row_builder;
pub mod rows;
pub mod slot;
pub mod value;
pub mod value_agreement;
