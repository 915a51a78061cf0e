//! One cell of a column of parameters.

use std::mem::size_of;

const _: () = prove!(size_of::<Cell>() == 16);

/// The kinds of parameters that have no parameters inside, and of keywords.
#[derive(Clone, Copy, Debug, PartialEq, Eq)]
pub enum Leaf {
    /// `$`, no value
    Unset,
    /// `*`, a derived value
    Star,
    /// An integer or a real number.
    Number,
    /// A string.
    Text,
    /// A binary.
    Bits,
    /// An element of an enumeration.
    Element,
    /// A reference to an instance.
    Reference,
    /// The keyword of a typed parameter or of a record.
    Keyword,
}

/// The kinds of cells.
#[derive(Clone, Copy, Debug, PartialEq, Eq)]
pub enum Kind {
    /// A node with nothing inside.
    Leaf(Leaf),
    /// A typed parameter: its keyword and the parameter inside.
    Typed,
    /// A list of parameters. Also a record: its keyword, then its parameters.
    List,
}

/// A node of a parameter. The nodes inside it come before it in its column, adjacent to each other.
#[derive(Clone, Copy)]
pub struct Cell {
    /// The kind of the node.
    pub kind: Kind,
    /// The number of bytes of a leaf, or the number of cells directly inside a list.
    pub len: u32,
    /// The byte offset of a leaf in the text, after the dot of an element; otherwise the index in
    /// the column of the first cell inside.
    pub at: u64,
}
