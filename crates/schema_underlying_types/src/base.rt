//! The base of a data type: the data type with the names of defined types resolved.

/// The width of a STRING or BINARY (ISO 10303-11, 8.1.6 and 8.1.7).
#[derive(Clone, Copy, Debug, PartialEq, Eq)]
pub struct Limit {
    /// The most characters or bits.
    pub most: i64,
    /// Whether all values have exactly `most` characters or bits.
    pub is_fixed: bool,
}

/// The kinds of aggregates (ISO 10303-11, 8.2).
#[derive(Clone, Copy, Debug, PartialEq, Eq)]
pub enum Collection {
    Array,
    List,
    Bag,
    Set,
}

/// An aggregate type (ISO 10303-11, 8.2).
#[derive(Clone, Copy, Debug, PartialEq, Eq)]
pub struct Aggregate {
    pub collection: Collection,
    /// The least count of elements, or the first index of an ARRAY. `None` if it is absent,
    /// indeterminate or unchecked.
    pub lower: Option<i64>,
    /// The greatest count of elements, or the last index of an ARRAY. `None` if it is absent,
    /// indeterminate or unchecked.
    pub upper: Option<i64>,
    /// Whether elements may be omitted.
    pub is_optional: bool,
    /// Whether all elements have to differ, as in each SET.
    pub is_unique: bool,
    /// The number of the data type of the elements.
    pub element: u32,
}

/// A data type with the names of defined types resolved. Enumerations, entities and SELECTs are
/// given by the numbers of their declarations.
#[derive(Clone, Copy, Debug, PartialEq, Eq)]
pub enum Base {
    Integer,
    /// NUMBER or REAL.
    Number,
    Boolean,
    Logical,
    String(Option<Limit>),
    Binary(Option<Limit>),
    Enumeration(u32),
    Entity(u32),
    Select(u32),
    Aggregate(Aggregate),
}
