//! Schemas and expressions of EXPRESS (ISO 10303-11) as trees, the texts that read as them, and the
//! laws of reading.
#![tactic(auto)]

mod clauses;
pub mod expression;
pub mod expression_laws;
pub mod fault;
pub mod keyword;
pub mod lexeme;
pub mod passage;
pub mod schema_laws;
pub mod tree;
