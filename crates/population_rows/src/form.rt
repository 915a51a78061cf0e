//! Forms of instances.

/// An explicit attribute for which an instance has a parameter.
#[derive(Drop)]
pub struct SlotForm {
    /// The number of the explicit attribute.
    pub place: u32,
    /// Whether one of the instance's types redeclares it as derived.
    pub is_derived: bool,
    /// Whether all its declarations say OPTIONAL.
    pub is_optional: bool,
    /// The numbers of the data types with which types of the instance declare and redeclare it, in
    /// the order of the text.
    pub data_types: Vec<u32>,
}

/// What instances have in common if they are mapped by records of equal entities.
#[derive(Drop)]
pub struct Form {
    /// The numbers of their types, in the order of the text.
    pub types: Vec<u32>,
    /// The number of these types that are ABSTRACT, without a subtype among them.
    pub abstract_leaves: usize,
    /// The number of supertypes of these types that are missing among them.
    pub missing_supertypes: usize,
    /// The number of ONEOFs that have two operands among them.
    pub broken_one_ofs: usize,
    /// The number of parameters that each record must have.
    pub counts: Vec<usize>,
    /// The attributes of all records, in the order of their parameters.
    pub slots: Vec<SlotForm>,
}
