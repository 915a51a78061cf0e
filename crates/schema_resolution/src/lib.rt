//! The resolution of a schema (ISO 10303-11): the supertypes of each entity, the explicit
//! attributes of its instances, the ranks and formulas of derived attributes, the unchecked parts,
//! the checked domain rules, and the rules that apply to a whole population.
#![tactic(auto)]

mod evaluated_parts;
pub mod findings;
mod population_rules;
pub mod resolution;
pub mod resolved_schema;
