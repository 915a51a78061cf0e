//! Theorems about merged files. If a merge maps the rows of a typed population, the image keeps the
//! schema's meaning. Pins can be found in two steps. A second run changes nothing. A checked output
//! is least.
#![tactic(auto)]

pub mod image_laws;
pub mod merged_file_laws;
