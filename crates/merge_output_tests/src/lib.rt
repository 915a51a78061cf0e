//! Tests of `merge_output`: smaller files by the classes of tables, by its public items alone.
#![tactic(auto)]

#[cfg(test)]
mod cases;
#[cfg(test)]
mod members;
#[cfg(test)]
mod sink;
#[cfg(test)]
mod sizes;
#[cfg(test)]
mod texts;
