//! Elements by their indices (ISO 10303-11, 12.6.1).

ghost use Rattle.std.specs.Prelude.{◌≡◌};
ghost use Rattle.express_logic.specs.Data.{aggregate};
ghost use Rattle.express_logic.specs.Literals.{whole_units};
ghost use Rattle.express_logic.specs.Views.{datum_of};
ghost use Rattle.conformance.specs.Operations.{element_from, indexed};
ghost use Rattle.rule_values.specs.TableValues.{shape_seen};
ghost use Rattle.rule_values.specs.steps.Indices.{IsWholeNumber, has_indices};
ghost use Rattle.rule_values.specs.Parts.{holding};

use crate::part::Part;
use crate::shape::Shape;
use express_logic::datum::{Datum, Held};

/// Returns the whole number that `datum` is, if it is one of 64 bits.
fn whole_number<'p, 'r>(datum: &Datum<'r, Part<'p, 'r>>) -> Option<i64>
    ensures { IsWholeNumber (datum_of holding datum.now) result }
{
    match datum {
        Datum::Number(decimal) => decimal.whole(),
        Datum::Minus(decimal) => decimal.whole_turned(true),
        Datum::Count(count) => Some(*count),
        _ => None,
    }
}

/// Whether `len` elements have indices. The elements of a SET or BAG have no order, so only a
/// single element has one.
fn has_indices(shape: Shape<'_>, len: usize) -> bool
    ensures { result ≡ has_indices (shape_seen shape.entry) len }
{
    match shape {
        Shape::Bag => len == 1,
        Shape::List => true,
        Shape::Array(_) => true,
    }
}

/// Returns the element at `index`, if the index of the first element is `first`; indeterminate if
/// there is no such element.
fn element_from<'p, 'r>(part: &Part<'p, 'r>, first: i64, index: i64) -> Datum<'r, Part<'p, 'r>>
    ensures { datum_of holding result
        ≡ element_from first (whole_units index) (holding part.now).elements }
{
    if index < first {
        return Datum::Indeterminate;
    }
    part.element_value(index.abs_diff(first) as usize).datum()
}

/// Returns the element at `index`; indeterminate if `index` isn't a whole number of 64 bits, or if
/// no element has that index.
fn element_of<'p, 'r>(
    part: &Part<'p, 'r>,
    index: &Datum<'r, Part<'p, 'r>>,
) -> Datum<'r, Part<'p, 'r>>
    ensures { datum_of holding result
        ≡ indexed (aggregate (holding part.now).shape (holding part.now).elements)
        (datum_of holding index.now) }
{
    let Some(first) = part.shape().first_index() else {
        return Datum::Indeterminate;
    };
    let Some(index) = whole_number(index) else {
        return Datum::Indeterminate;
    };
    if has_indices(part.shape(), part.len()) {
        element_from(part, first, index)
    } else {
        Datum::Indeterminate
    }
}

/// Returns `datum[index]`, an element of an aggregate (ISO 10303-11, 12.6.1). The elements of a SET
/// or BAG have no order, so only a single element has an index, which is 1. Returns indeterminate
/// if there is no such element.
pub fn indexed<'p, 'r>(
    datum: &Datum<'r, Part<'p, 'r>>,
    index: &Datum<'r, Part<'p, 'r>>,
) -> Datum<'r, Part<'p, 'r>>
    ensures { datum_of holding result
        ≡ indexed (datum_of holding datum.now) (datum_of holding index.now) }
{
    match datum {
        Datum::Aggregate(part) => element_of(part, index),
        _ => Datum::Indeterminate,
    }
}
