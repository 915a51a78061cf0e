//! The entities of a schema whose instances may be merged: the usual ones, or those that are named.
#![tactic(auto)]

pub mod choice;
mod marks;
mod names;
