//! The parts of values that are compared (ISO 10303-11, 12.2.1).

ghost use Rattle.std.specs.Prelude.{◌≡◌};
ghost use Rattle.express_logic.specs.Comparison.{equal_scalars, less_scalars};
ghost use Rattle.express_logic.specs.Views.{scalar_of};

use crate::binaries::{AnyBinary, same_binary};
use crate::logical::{Logical, known, rank};
use crate::numbers::{AnyNumber, compare_numbers};
use crate::strings::{AnyString, same_string};
use step_literals::literal::Word;

/// The part of a value that is compared.
#[derive(Clone, Copy)]
pub enum Scalar<'a> {
    Number(AnyNumber<'a>),
    String(AnyString<'a>),
    Binary(AnyBinary<'a>),
    /// An element of an enumeration.
    Element(Word<'a>),
    Logical(Logical),
    /// An indeterminate value, an instance or an aggregate has no such part.
    Nothing,
}

impl<'a> Scalar<'a> {
    /// Whether two values are equal.
    pub(crate) fn equal(&self, other: &Scalar<'_>) -> Logical
        ensures { result ≡ equal_scalars (scalar_of self.now) (scalar_of other.now) }
    {
        match (self, other) {
            (Scalar::Number(a), Scalar::Number(b)) => known(compare_numbers(a, b).is_eq()),
            (Scalar::String(a), Scalar::String(b)) => known(same_string(a, b)),
            (Scalar::Binary(a), Scalar::Binary(b)) => known(same_binary(a, b)),
            (Scalar::Element(a), Scalar::Element(b)) => known(*a == *b),
            (Scalar::Logical(a), Scalar::Logical(b)) => known(rank(*a) == rank(*b)),
            _ => Logical::Unknown,
        }
    }

    /// Whether the value is less than another.
    pub(crate) fn less(&self, other: &Scalar<'_>) -> Logical
        ensures { result ≡ less_scalars (scalar_of self.now) (scalar_of other.now) }
    {
        match (self, other) {
            (Scalar::Number(a), Scalar::Number(b)) => known(compare_numbers(a, b).is_lt()),
            (Scalar::Logical(a), Scalar::Logical(b)) => known(rank(*a) < rank(*b)),
            _ => Logical::Unknown,
        }
    }
}
