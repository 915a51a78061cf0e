//! The content of typed values, and the functions EXISTS, NVL, SIZEOF, HIINDEX and LOINDEX
//! (ISO 10303-11, 15).

ghost use Rattle.std.specs.Prelude.{◌≡◌, pos, IfOk};
ghost use Rattle.express_logic.specs.Data.{is_known, number};
ghost use Rattle.express_logic.specs.Holdings.{size_of};
ghost use Rattle.express_logic.specs.Literals.{whole_units};
ghost use Rattle.express_logic.specs.Views.{datum_of};
ghost use Rattle.conformance.specs.Operations.{bare, whole, size, last_index, high_index, low_index, or_else};
ghost use Rattle.rule_values.specs.Parts.{holding};

use crate::part::Part;
use crate::shape::Shape;
use express_logic::datum::{Datum, Held};
use std::alloc::AllocError;

/// Returns the value inside a typed value, at any depth, and any other value unchanged. A value of
/// a defined type may be used as one of its underlying type (ISO 10303-11, 9.2.7 and 12.11).
pub fn bare<'p, 'r>(value: Datum<'r, Part<'p, 'r>>) -> Datum<'r, Part<'p, 'r>>
    ensures { datum_of holding result ≡ bare (datum_of holding value.entry) }
{
    match value {
        Datum::Typed(part) => part.inside(),
        other => other,
    }
}

/// Whether `datum` has a value, so that EXISTS is TRUE (ISO 10303-11, 15.9).
pub fn is_known<'p, 'r>(datum: &Datum<'r, Part<'p, 'r>>) -> bool
    ensures { result ≡ is_known (datum_of holding datum.now) }
{
    match datum {
        Datum::Indeterminate => false,
        _ => true,
    }
}

/// Returns `datum` if it has a value, otherwise `other`: NVL (ISO 10303-11, 15.18).
pub fn or_else<'p, 'r>(
    datum: Datum<'r, Part<'p, 'r>>,
    other: Datum<'r, Part<'p, 'r>>,
) -> Datum<'r, Part<'p, 'r>>
    ensures { datum_of holding result
        ≡ or_else (datum_of holding datum.entry) (datum_of holding other.entry) }
{
    match datum {
        Datum::Indeterminate => other,
        known => known,
    }
}

/// Returns `number` as a datum; indeterminate if it is `None`.
fn whole<'p, 'r>(number: Option<i64>) -> Datum<'r, Part<'p, 'r>>
    ensures { datum_of holding result ≡ whole number }
{
    match number {
        Some(number) => Datum::Count(number),
        None => Datum::Indeterminate,
    }
}

/// Returns `len` as a signed number of 64 bits. Fails if it is 2^63 or more.
fn count(len: usize) -> Result<i64, AllocError>
    ensures { IfOk result (λ n. n ≡ pos len) }
{
    match i64::try_from(len) {
        Ok(count) => Ok(count),
        Err(_) => Err(AllocError),
    }
}

/// Returns `len` as a datum. Fails if it is 2^63 or more.
pub fn counted<'p, 'r>(len: usize) -> Result<Datum<'r, Part<'p, 'r>>, AllocError>
    ensures { IfOk result (λ d. datum_of holding d ≡ number (whole_units (pos len))) }
{
    Ok(Datum::Count(count(len)?))
}

/// Returns the number of elements of an aggregate, including unset ones: SIZEOF (ISO 10303-11,
/// 15.22). Returns indeterminate if `datum` isn't an aggregate. Fails if there are 2^63 elements or
/// more.
pub fn size<'p, 'r>(datum: &Datum<'r, Part<'p, 'r>>) -> Result<Datum<'r, Part<'p, 'r>>, AllocError>
    ensures { IfOk result (λ d. datum_of holding d ≡ size (datum_of holding datum.now)) }
{
    match datum {
        Datum::Aggregate(part) => counted(part.len()),
        _ => Ok(Datum::Indeterminate),
    }
}

/// Returns the last index of an aggregate: the declared one of an ARRAY, if any, otherwise the
/// number of elements.
fn last_index<'p, 'r>(part: &Part<'p, 'r>) -> Result<Option<i64>, AllocError>
    ensures { IfOk result (λ n. n ≡ last_index (holding part.now).shape
        (size_of (holding part.now).elements)) }
{
    match part.shape() {
        Shape::Array(aggregate) => Ok(aggregate.upper),
        Shape::List => Ok(Some(count(part.len())?)),
        Shape::Bag => Ok(Some(count(part.len())?)),
    }
}

/// Returns the last index of an aggregate: HIINDEX (ISO 10303-11, 15.11). Returns indeterminate if
/// `datum` isn't an aggregate. Fails if 2^63 elements or more have to be counted.
pub fn high_index<'p, 'r>(
    datum: &Datum<'r, Part<'p, 'r>>,
) -> Result<Datum<'r, Part<'p, 'r>>, AllocError>
    ensures { IfOk result (λ d. datum_of holding d ≡ high_index (datum_of holding datum.now)) }
{
    let Datum::Aggregate(part) = datum else {
        return Ok(Datum::Indeterminate);
    };
    Ok(whole(last_index(part)?))
}

/// Returns the first index of an aggregate: LOINDEX (ISO 10303-11, 15.17). Returns indeterminate if
/// `datum` isn't an aggregate.
pub fn low_index<'p, 'r>(datum: &Datum<'r, Part<'p, 'r>>) -> Datum<'r, Part<'p, 'r>>
    ensures { datum_of holding result ≡ low_index (datum_of holding datum.now) }
{
    let Datum::Aggregate(part) = datum else {
        return Datum::Indeterminate;
    };
    whole(part.shape().first_index())
}
