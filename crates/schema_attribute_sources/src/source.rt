//! The source of an attribute's value.

/// A derived attribute: its entity, and its index in the DERIVE clause, counted from 0
/// (ISO 10303-11, 9.2.1.2).
#[derive(Clone, Copy, Debug, PartialEq, Eq)]
pub struct Derivation {
    /// The number of the entity.
    pub entity: u32,
    pub number: usize,
}

/// The source of an attribute's value (ISO 10303-11, 9.2.1).
#[derive(Clone, Copy, Debug, PartialEq, Eq)]
pub enum Source {
    /// The explicit attribute with this number: a parameter of the instance.
    Explicit(u32),
    Derived(Derivation),
    /// The inverse attribute with this number: the instances that refer to the instance.
    Inverse(usize),
    /// The attribute doesn't exist, or its source is ambiguous.
    Unclear,
}
