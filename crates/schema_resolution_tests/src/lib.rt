//! Tests of the crates that resolve the data types of a schema and list its parts that aren't checked.
#![tactic(auto)]

#[cfg(test)]
mod attributes;
#[cfg(test)]
mod lists;
#[cfg(test)]
mod questions;
#[cfg(test)]
mod rows;
#[cfg(test)]
mod values;
