//! A declaration or redeclaration of an attribute.

/// A declaration or redeclaration of an attribute.
#[derive(Clone, Copy, Debug, PartialEq, Eq)]
pub struct AttributeDeclaration {
    /// The number of the entity that declares the attribute first.
    pub entity: u32,
    /// The number of the data type in this declaration.
    pub data_type: u32,
    /// The number of the derived attribute, if this declaration derives the value.
    pub derivation: Option<u32>,
}
