//! Findings: where and how an exchange structure breaks its schema.

/// The kind of a finding (ISO 10303-21, 11; ISO 10303-11, 8 and 9).
#[derive(Clone, Copy, Debug, PartialEq, Eq)]
pub enum FindingKind {
    /// F1: the keyword of a record isn't an entity of the schema.
    UnknownEntity,
    /// F2: a type of the instance that has no subtype among the instance's types is ABSTRACT.
    AbstractInstance,
    /// F3: a supertype of an externally mapped instance has no partial record.
    MissingSupertype,
    /// F4: two operands of a ONEOF are among the types of an instance.
    OneOfBroken,
    /// F5: a record has more parameters than attributes, or fewer.
    ParameterCount,
    /// F6: the value is of a kind that its data type doesn't allow.
    WrongKind,
    /// F7: `$` for a value that isn't OPTIONAL.
    MissingValue,
    /// F8: `*` for a value that no type of the instance derives, or a value other than `*` and `$`
    /// for one that a type derives.
    MisplacedStar,
    /// F9: a reference names no instance of the file.
    DanglingReference,
    /// F10: a reference names an instance that isn't of the required entity.
    WrongEntity,
    /// F11: a word between dots isn't an item of the enumeration.
    UnknownElement,
    /// F12: an aggregate has more elements than its bounds allow, or fewer.
    OutOfBounds,
    /// F13: a string has more characters than its width allows, or a binary more bits. If the width
    /// is FIXED, fewer are a finding too.
    TooWide,
    /// F14: two elements of a SET, or of an aggregate OF UNIQUE, are equal.
    NotDistinct,
    /// F15: the value of a SELECT is of none of its items.
    NoSelectItem,
    /// F19: the exchange structure names another schema.
    SchemaName,
}

/// Where in an exchange structure a finding is.
#[derive(Clone, Copy, Debug, PartialEq, Eq)]
pub enum Spot {
    /// This parameter of an instance, counted from 1 through all of its records as they are
    /// written; 0 is the whole instance.
    Place(u64),
    /// The exchange structure as a whole.
    Nothing,
}

/// A finding: what is wrong, and where.
#[derive(Clone, Copy, Debug, PartialEq, Eq)]
pub struct Finding {
    pub kind: FindingKind,
    /// The name of the instance; 0 if the finding is that of the whole structure.
    pub instance: u64,
    pub spot: Spot,
}
