//! The integers of bounds and widths.

ghost use Rattle.std.specs.Prelude.{◌≡◌};
ghost use Rattle.express_syntax.specs.Views.{bound_of, bounds_of, fixed_of, if_some};
ghost use Rattle.schema_underlying_types.specs.steps.Measures.{bound_in, lower_in, upper_in, width_in};
ghost use Rattle.schema_underlying_types.specs.BaseEntries.{limit_in};
ghost use Rattle.express_syntax.specs.Views.{width_of};

use crate::base::Limit;
use express_syntax::tree::{Bound, Bounds, FixedWidth, Width};

/// Returns the integer value of `bound`, or `None` if it is indeterminate or unchecked.
pub(crate) fn value_of(bound: &Bound<'_>) -> Option<i64>
    ensures { result ≡ bound_in (bound_of bound.now) }
{
    bound.value()
}

/// Returns the lower bound, if any.
pub(crate) fn lower_of(bounds: &Option<Bounds<'_>>) -> Option<i64>
    ensures { result ≡ lower_in (if_some bounds_of bounds.now) }
{
    match bounds {
        Some(bounds) => value_of(&bounds.lower),
        None => None,
    }
}

/// Returns the upper bound, if any.
pub(crate) fn upper_of(bounds: &Option<Bounds<'_>>) -> Option<i64>
    ensures { result ≡ upper_in (if_some bounds_of bounds.now) }
{
    match bounds {
        Some(bounds) => value_of(&bounds.upper),
        None => None,
    }
}

/// Returns the integer value of `width`, or `None` if it is unchecked.
fn most_of(width: &Width<'_>) -> Option<i64>
    ensures { result ≡ width_in (width_of width.now) }
{
    match width {
        Width::Value(digits) => digits.whole(),
        Width::Other(_) => None,
    }
}

/// Returns the limit of a width, if there is one and it is checked.
pub(crate) fn limit_of(width: &Option<Box<FixedWidth<'_>>>) -> Option<Limit>
    ensures { result ≡ limit_in (if_some (λ b. fixed_of b.value) width.now) }
{
    let Some(fixed) = width else {
        return None;
    };
    match most_of(&fixed.width) {
        Some(most) => Some(Limit {
            most,
            is_fixed: fixed.is_fixed,
        }),
        None => None,
    }
}
