//! The attributes that a reference takes.

use schema_data_types::values::Atom;

/// The attributes that a reference takes.
#[derive(Drop)]
pub struct Taken {
    /// Whether the reference takes any attribute.
    pub is_some: bool,
    /// Whether the reference takes no attribute, or an entity has two of them from different
    /// entities.
    pub is_unclear: bool,
    /// The possible values of the reference.
    pub may: Vec<Atom>,
    /// The numbers of the derived attributes on which the value may depend.
    pub uses: Vec<u32>,
}
