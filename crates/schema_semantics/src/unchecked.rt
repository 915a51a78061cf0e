//! The parts of a schema that are read and aren't checked.

/// The kind of a part: the keyword that begins it, or what it limits.
#[derive(Clone, Copy, Debug, PartialEq, Eq)]
pub enum PartKind {
    Function,
    Procedure,
    Rule,
    Constant,
    SubtypeConstraint,
    Where,
    Derive,
    Inverse,
    Unique,
    /// A bound of an aggregate.
    Bound,
    /// The width of a string or a binary, or the precision of a REAL.
    Width,
    Supertype,
    /// An explicit attribute that is redeclared with another shape.
    Redeclared,
}

/// Why a part isn't checked. The first reason that holds is reported.
#[derive(Clone, Copy, Debug, PartialEq, Eq)]
pub enum Reason {
    /// Such a declaration is skipped.
    Skipped,
    /// It is outside the part of the language that is checked.
    Profile,
    /// A name means nothing, or two attributes.
    Name,
    /// TYPEOF isn't the right operand of IN, or its value isn't known.
    Typeof,
    /// It compares values that aren't compared.
    Kind,
    /// It may use a derived attribute that isn't checked, or that may use itself.
    Leads,
}
