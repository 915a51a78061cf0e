//! The tables of the attributes and supertypes of a schema.

use schema_attributes::attributes::Attributes;
use schema_data_types::values::Tables;

/// The tables of a schema whose names are resolved.
#[derive(Clone, Copy)]
pub struct Known<'a, 't, 'r> {
    pub tables: Tables<'a, 't, 'r>,
    /// By declaration, the numbers of an entity's proper supertypes.
    pub above: &'r [Vec<u32>],
    /// By declaration, the numbers of an entity's proper subtypes.
    pub below: &'r [Vec<u32>],
    pub attributes: &'r Attributes<'a>,
}
