//! Expressions of EXPRESS (ISO 10303-11, 12), read from the tokens of one expression.
#![tactic(auto)]

mod boxes;
mod builders;
mod front;
mod literals;
mod primary_starts;
pub mod reader;
mod refusals;
