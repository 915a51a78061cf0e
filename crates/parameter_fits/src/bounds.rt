//! The number of characters, bits or elements that a data type allows.

ghost use Rattle.std.specs.Prelude.{◌≡◌, min, length, not, pos, int_lt, ◌+ℤ◌, ◌-ℤ◌};
ghost use Rattle.std.specs.Ordering.{int_eq};
ghost use Rattle.express_syntax.specs.Schemas.{Schema};
ghost use Rattle.step_literals.specs.Bits.{bits_of};
ghost use Rattle.step_literals.specs.Items.{string_items};
ghost use Rattle.conformance.specs.ParameterFits.{has_width, is_least, is_most, fills, in_bounds};
ghost use Rattle.schema_underlying_types.specs.BaseViews.{limit_seen, aggregate_seen};

use schema_underlying_types::base::{Aggregate, Collection, Limit};
use step_literals::literal::{Bits, Text};

/// Whether `width` allows `count` characters or bits.
fn has_width(width: Limit, count: u128) -> bool
    ensures { result ≡ has_width (limit_seen width) count }
{
    if width.most < 0 {
        return false;
    }
    let most = width.most as u128;
    if width.is_fixed {
        count == most
    } else {
        count <= most
    }
}

/// Returns the number of characters of `text`, but at most `most`.
fn count_to(text: &Text<'_>, most: usize) -> usize
    ensures { result ≡ min (length (string_items text.now.text.now)) most }
{
    let mut items = text.items();
    for count in 0..most {
        if items.next().is_none() {
            return count;
        }
    }
    most
}

/// Whether `width` allows the number of characters of `text`. Reads at most one character more than
/// `width` allows.
#[inline(never)]
pub fn text_has_width(width: Limit, text: &Text<'_>) -> bool
    ensures { result ≡ has_width (limit_seen width) (length (string_items text.now.text.now)) }
{
    if width.most < 0 {
        return false;
    }
    has_width(width, count_to(text, width.most as usize + 1) as u128)
}

/// Whether `width` allows the number of bits of `bits`.
pub fn bits_have_width(width: Limit, bits: &Bits<'_>) -> bool
    ensures { result ≡ has_width (limit_seen width) (length (bits_of bits.now.text.now)) }
{
    has_width(width, bits.len())
}

fn is_least(lower: i64, count: usize) -> bool
    ensures { result ≡ not (int_lt (pos count) lower) }
{
    i128::from(lower) <= count as i128
}

fn is_most(upper: i64, count: usize) -> bool
    ensures { result ≡ not (int_lt upper (pos count)) }
{
    count as i128 <= i128::from(upper)
}

/// Whether an ARRAY with the indices `lower` to `upper` has `count` elements.
fn fills(lower: i64, upper: i64, count: usize) -> bool
    ensures { result ≡ int_eq (pos count) (upper -ℤ lower +ℤ pos 1) }
{
    count as i128 == i128::from(upper) - i128::from(lower) + 1
}

/// Whether `count` is within the lower bound, if any.
pub fn has_least(lower: Option<i64>, count: usize) -> bool
    ensures { result ≡ is_least lower count }
{
    match lower {
        None => true,
        Some(lower) => is_least(lower, count),
    }
}

/// Whether `count` is within the upper bound, if any.
pub fn has_most(upper: Option<i64>, count: usize) -> bool
    ensures { result ≡ is_most upper count }
{
    match upper {
        None => true,
        Some(upper) => is_most(upper, count),
    }
}

fn has_indices(lower: Option<i64>, upper: Option<i64>, count: usize) -> bool
    ensures { result ≡ fills lower upper count }
{
    match (lower, upper) {
        (Some(lower), Some(upper)) => fills(lower, upper, count),
        _ => true,
    }
}

/// Whether `aggregate` allows `count` elements (ISO 10303-11, 8.2).
pub fn in_bounds(aggregate: Aggregate, count: usize) -> bool
    ensures { (s : Schema) → result ≡ in_bounds (aggregate_seen s aggregate) count }
{
    match aggregate.collection {
        Collection::Array => has_indices(aggregate.lower, aggregate.upper, count),
        _ => has_least(aggregate.lower, count) && has_most(aggregate.upper, count),
    }
}
