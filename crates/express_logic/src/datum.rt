//! Values of expressions.

ghost use Rattle.std.specs.Prelude.{◌≡◌};
ghost use Rattle.std.specs.Option.{option_map};
ghost use Rattle.express_logic.specs.Data.{truth};
ghost use Rattle.express_logic.specs.Comparison.{scalar};
ghost use Rattle.express_logic.specs.Holdings.{Holding, size_of, element_at};
ghost use Rattle.express_logic.specs.Views.{scalar_of, datum_of};

use crate::logical::Logical;
use crate::scalar::Scalar;
use express_lexer::literal::{Binary, EncodedString, SimpleString};
use step_literals::literal::{Bits, Decimal, Text, Word};

/// The value of an expression (ISO 10303-11, 12). A `V` holds the content of a typed value or an
/// aggregate.
#[derive(Drop)]
pub enum Datum<'a, V> {
    /// No value, such as that of `?`.
    Indeterminate,
    /// A number, of an exchange structure or of a schema.
    Number(Decimal<'a>),
    /// A number of a schema after a minus.
    Minus(Decimal<'a>),
    /// A number that is counted rather than spelled, such as that of SIZEOF.
    Count(i64),
    /// A string of an exchange structure.
    Text(Text<'a>),
    /// A string of a schema.
    Items(SimpleString<'a>),
    /// A string of a schema, spelled by the codes of its characters.
    Encoded(EncodedString<'a>),
    /// A binary of an exchange structure.
    Bits(Bits<'a>),
    /// A binary of a schema.
    Flags(Binary<'a>),
    /// An element of an enumeration.
    Element(Word<'a>),
    Logical(Logical),
    /// An instance, by its name.
    Instance(u64),
    /// A value with the name of its type.
    Typed(V),
    Aggregate(V),
}

/// A holder of a typed value or an aggregate.
pub trait Held<'a>: Sized {
    /// The content of the holder.
    ghost held: { Self → Holding };

    /// Returns the part of the inner value that is compared, if this holds a typed value.
    fn bare(&self) -> Scalar<'a>
        ensures { scalar_of result ≡ scalar (held self.now).inner };

    /// Returns the number of elements.
    fn len(&self) -> usize
        ensures { result ≡ size_of (held self.now).elements };

    /// Returns the element at this index, counted from 0, if any.
    fn element(&self, index: usize) -> Option<Datum<'a, Self>>
        ensures { option_map (datum_of held) result ≡ element_at index (held self.now).elements };
}

impl<'a, V: Held<'a>> Datum<'a, V> {
    /// Returns the value as an operand of NOT, AND, OR and XOR, and as a condition: UNKNOWN if it
    /// is no logical.
    pub fn truth(&self) -> Logical
        ensures { result ≡ truth (datum_of V.held self.now) }
    {
        match self {
            Datum::Logical(p) => *p,
            _ => Logical::Unknown,
        }
    }
}
