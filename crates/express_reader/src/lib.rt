//! EXPRESS schemas (ISO 10303-11), read as trees.
//!
//! This crate exports everything that a user of trees needs: `read_schema`, the tree of a schema
//! and its faults, the trees of expressions, and literals with their values.
#![tactic(auto)]

mod schema;
mod types;

pub use express_lexer::literal;
pub use express_syntax::{expression, fault, passage, tree};
pub use schema::read_schema;
pub use step_literals::literal::{Decimal, Word};
