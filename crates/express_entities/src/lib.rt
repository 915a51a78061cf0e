//! Entities of EXPRESS schemas (ISO 10303-11, 9.2).
#![tactic(auto)]

mod attributes;
mod clauses;
pub mod entities;
