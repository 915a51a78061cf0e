//! Evaluation of expressions at the instances of a population (ISO 10303-11, 12).
#![tactic(auto)]

mod context;
mod derived_values;
mod evaluation;
mod lists;
mod qualifiers;
mod queries;
mod query_elements;
mod references;
mod scope;
mod types;
pub mod values;
