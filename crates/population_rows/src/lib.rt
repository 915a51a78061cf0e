//! Rows of a population by the names of its instances, the forms of the instances by row, and the
//! positions of attributes in a form.
#![tactic(auto)]

pub mod form;
pub mod index;
pub mod positions;
pub mod rows;
