//! The smaller file: an exchange structure in which each class of instances is replaced by its
//! first instance.
#![tactic(auto)]

pub mod fault;
mod first_members;
pub mod reference_targets;
pub mod rewrite;
