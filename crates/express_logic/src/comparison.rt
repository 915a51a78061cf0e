//! Comparison of values and membership (ISO 10303-11, 12.2).

ghost use Rattle.std.specs.Prelude.{◌≡◌};
ghost use Rattle.express_logic.specs.Comparison.{scalar, equal, less, member};
ghost use Rattle.express_logic.specs.Holdings.{element_at};
ghost use Rattle.express_logic.specs.steps.Steps.{among_scalars, equal_in};
ghost use Rattle.express_logic.specs.Views.{scalar_of, datum_of};

use crate::binaries::AnyBinary;
use crate::datum::{Datum, Held};
use crate::logical::{Logical, known, or};
use crate::numbers::AnyNumber;
use crate::scalar::Scalar;
use crate::strings::AnyString;

/// Whether two values are equal (ISO 10303-11, 12.2.1):
///
/// - numbers by value,
/// - strings by their characters,
/// - binaries by their bits,
/// - elements of enumerations by their names, regardless of case,
/// - typed values by their inner values.
///
/// UNKNOWN if a side is indeterminate, an instance or an aggregate, or if the kinds differ.
///
/// Numbers have branches of their own, since they are compared most.
pub fn equal<'a, V: Held<'a>>(a: &Datum<'a, V>, b: &Datum<'a, V>) -> Logical
    ensures { result ≡ equal (datum_of V.held a.now) (datum_of V.held b.now) }
{
    match (a, b) {
        (Datum::Number(x), Datum::Number(y)) => known(x == y),
        (Datum::Count(x), Datum::Number(y)) => known(y.compare_whole(*x).is_eq()),
        (Datum::Number(x), Datum::Count(y)) => known(x.compare_whole(*y).is_eq()),
        _ => bare(a).equal(&bare(b)),
    }
}

/// Whether the first value is less than the second (ISO 10303-11, 12.2.1), if both are numbers, or
/// both are logicals with FALSE < UNKNOWN < TRUE; otherwise UNKNOWN.
///
/// Numbers have branches of their own, since they are compared most.
pub fn less<'a, V: Held<'a>>(a: &Datum<'a, V>, b: &Datum<'a, V>) -> Logical
    ensures { result ≡ less (datum_of V.held a.now) (datum_of V.held b.now) }
{
    match (a, b) {
        (Datum::Number(x), Datum::Number(y)) => known(x < y),
        (Datum::Count(x), Datum::Number(y)) => known(y.compare_whole(*x).is_gt()),
        (Datum::Number(x), Datum::Count(y)) => known(x.compare_whole(*y).is_lt()),
        _ => bare(a).less(&bare(b)),
    }
}

/// Whether the second value, an aggregate, has an element equal to the first (ISO 10303-11,
/// 12.2.3).
///
/// UNKNOWN if the first is indeterminate or the second is no aggregate, and if no element is equal
/// but some comparison is UNKNOWN.
pub fn member<'a, V: Held<'a> + Drop>(a: &Datum<'a, V>, b: &Datum<'a, V>) -> Logical
    ensures { result ≡ member (datum_of V.held a.now) (datum_of V.held b.now) }
{
    match (a, b) {
        (Datum::Indeterminate, _) => Logical::Unknown,
        (_, Datum::Aggregate(elements)) => among(&bare(a), elements),
        _ => Logical::Unknown,
    }
}

/// Returns the part of a value that is compared.
fn bare<'a, V: Held<'a>>(datum: &Datum<'a, V>) -> Scalar<'a>
    ensures { scalar_of result ≡ scalar (datum_of V.held datum.now) }
{
    match datum {
        Datum::Number(decimal) => Scalar::Number(AnyNumber::Written {
            decimal: *decimal,
            is_negated: false,
        }),
        Datum::Minus(decimal) => Scalar::Number(AnyNumber::Written {
            decimal: *decimal,
            is_negated: true,
        }),
        Datum::Count(count) => Scalar::Number(AnyNumber::Count(*count)),
        Datum::Text(text) => Scalar::String(AnyString::Exchange(*text)),
        Datum::Items(string) => Scalar::String(AnyString::Simple(*string)),
        Datum::Encoded(string) => Scalar::String(AnyString::Encoded(*string)),
        Datum::Bits(bits) => Scalar::Binary(AnyBinary::Exchange(*bits)),
        Datum::Flags(binary) => Scalar::Binary(AnyBinary::Schema(*binary)),
        Datum::Element(word) => Scalar::Element(*word),
        Datum::Logical(p) => Scalar::Logical(*p),
        Datum::Typed(held) => held.bare(),
        Datum::Indeterminate | Datum::Instance(_) | Datum::Aggregate(_) => Scalar::Nothing,
    }
}

/// Whether a value is equal to an element of an aggregate.
fn among<'a, V: Held<'a> + Drop>(scalar: &Scalar<'a>, elements: &V) -> Logical
    ensures { result ≡
        among_scalars (scalar_of scalar.now) (V.held elements.now).elements }
{
    let mut result = Logical::False;
    for index in 0..elements.len() {
        match equal_at(scalar, elements, index) {
            Logical::True => return Logical::True,
            equal => result = or(result, equal),
        }
    }
    result
}

/// Whether a value is equal to the element at this index; FALSE if there is no such element.
fn equal_at<'a, V: Held<'a> + Drop>(scalar: &Scalar<'a>, elements: &V, index: usize) -> Logical
    ensures { result ≡
        equal_in (scalar_of scalar.now) (element_at index (V.held elements.now).elements) }
{
    match elements.element(index) {
        Some(element) => scalar.equal(&bare(&element)),
        None => Logical::False,
    }
}
