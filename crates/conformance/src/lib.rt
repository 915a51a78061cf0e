//! When an exchange structure conforms to a schema (ISO 10303-21, 11; ISO 10303-11). The
//! definitions cover findings, the population, values and their data types, uniqueness rules,
//! inverse attributes, expressions, and domain rules. The laws say what images of a population keep
//! of all that.
#![tactic(auto)]

pub mod finding;
pub mod meaning_laws;
pub mod row_laws;
pub mod rule_laws;
pub mod value_laws;
