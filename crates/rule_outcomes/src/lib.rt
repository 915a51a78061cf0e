//! The values of expressions and the outcomes of domain rules at the instances of a population
//! (ISO 10303-11, 9.1, 9.2.2.2 and 12).
#![tactic(auto)]

pub mod evaluator;
pub mod laws;
mod outcome;
pub mod report;
pub mod rule_check;
