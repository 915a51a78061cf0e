//! One cell of a column of values.

use parsing::column::Run;
use std::mem::size_of;
use step_literals::literal::{Bits, Decimal, Text, Word};

const _: () = prove!(size_of::<Cell>() <= 24);

/// One node of a value. The nodes directly inside it come before it in its column, side by side.
#[derive(Clone, Copy)]
pub enum Cell<'a> {
    /// No value.
    Unset,
    /// The value of a redeclared attribute that is derived.
    Derived,
    /// A number.
    Number(Decimal<'a>),
    /// A string.
    Text(Text<'a>),
    /// A binary.
    Bits(Bits<'a>),
    /// An element of an enumeration.
    Element(Word<'a>),
    /// A reference to the row with this name.
    Reference {
        /// The name of the row.
        name: u64,
        /// The number of the row, counted from 0.
        row: u32,
    },
    /// A value with the name of its type. The index of the value is split into two parts, which
    /// come first: so they fit into the eight bytes that the variant's tag begins, and a cell has
    /// 24.
    Typed {
        /// The index of the value divided by 2^32, rounded down.
        high: u8,
        /// The remainder of that division.
        low: u32,
        /// The name of the type.
        word: Word<'a>,
    },
    /// A LIST or an ARRAY: the run of its values, in order.
    Sequence(Run),
    /// A SET or a BAG: the run of its values, in any order.
    Bag(Run),
}
