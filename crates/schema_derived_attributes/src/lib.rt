//! Derived attributes: the uses of one by another, their ranks and their formulas
//! (ISO 10303-11, 9.2.1.2).
#![tactic(auto)]

pub mod formula;
pub mod formula_existence;
pub mod formula_lookup;
pub mod formula_table;
pub mod rank_lookup;
pub mod ranks;
