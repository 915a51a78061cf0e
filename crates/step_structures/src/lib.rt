//! The exchange structure of a STEP file (ISO 10303-21): which texts read as one, the first fault
//! of other texts, the normal text, and laws. Also structures whose instances are merged: the first
//! instance of each class stays, and each reference to another one is replaced by a reference to
//! it.
#![tactic(auto)]

pub mod fault;
pub mod laws;
pub mod merged_text_laws;
