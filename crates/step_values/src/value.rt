//! Values of attributes.

use step_literals::literal::{Bits, Decimal, Text, Word};

/// A value of an attribute.
#[derive(Drop)]
pub enum PlainValue<'a> {
    /// No value.
    Unset,
    /// The value of a redeclared attribute that is derived.
    Derived,
    Number(Decimal<'a>),
    Text(Text<'a>),
    Bits(Bits<'a>),
    /// An element of an enumeration.
    Element(Word<'a>),
    /// A reference to the row with this name.
    Reference(u64),
    /// A value with the name of its type.
    Typed(Word<'a>, Box<PlainValue<'a>>),
    /// A LIST or an ARRAY: values in order.
    Sequence(Vec<PlainValue<'a>>),
    /// A SET or a BAG: values in any order.
    Bag(Vec<PlainValue<'a>>),
}
