//! The instances of a population that keep their identity, so that no merge replaces one by
//! another.
//!
//! The reasons are the types that aren't chosen, the occurrences in SETs, BAGs and elements OF
//! UNIQUE, the keys of uniqueness rules, and the sides of inverse attributes.
#![tactic(auto)]

pub mod bags;
pub mod classes;
pub mod elements;
mod forms;
pub mod lists;
pub mod pin_names;
pub mod pinned_names;
mod rows;
mod sides;
mod slots;
mod supertype_marks;
pub mod targets;
mod unique_elements;
mod unique_holders;
mod unique_lists;
mod weak_pin_lists;
pub mod weak_pins;
pub mod weak_rules;
