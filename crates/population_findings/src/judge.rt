//! What the parameters of a file are checked by.

use parameter_fits::targets::Targets;
use schema_underlying_types::lookup::Bases;
use std::alloc::Global;

/// The requirements of data types on parameters, and the targets of references.
#[derive(Clone, Copy)]
pub struct Judge<'a, 't, 'r> {
    /// The memory in which elements that have to be distinct are compared.
    pub alloc: Global,
    pub bases: Bases<'a, 't, 'r>,
    pub targets: Targets<'r>,
}
