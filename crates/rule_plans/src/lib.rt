//! Tables that are built once from the domain rules of a schema, and the values of SELF for which
//! the rules are tried (ISO 10303-11, 9.1 and 9.2.2.2).
#![tactic(auto)]

mod applicable_rules;
mod flat_values;
pub mod found_values;
pub mod plan;
pub mod rank_limit;
mod renamings;
pub mod rule_types;
pub mod searched_types;
pub mod skipped_attributes;
mod typed_values;
mod value_search;
pub mod values;
