//! Numbers, compared by value (ISO 10303-11, 12.2.1.1).

ghost use Rattle.std.specs.Prelude.{◌≡◌};
ghost use Rattle.std.specs.Ordering.{int_cmp};
ghost use Rattle.step_literals.specs.Decimals.{turned, units};
ghost use Rattle.express_logic.specs.Literals.{whole_units};
ghost use Rattle.express_logic.specs.Views.{worth};

use std::cmp::Ordering;
use step_literals::literal::Decimal;

/// A number, spelled or counted.
#[derive(Clone, Copy)]
pub enum AnyNumber<'a> {
    /// The value of the spelling, negated if `is_negated`.
    Written {
        decimal: Decimal<'a>,
        is_negated: bool,
    },
    Count(i64),
}

/// Compares the values of two numbers.
pub(crate) fn compare_numbers(a: &AnyNumber<'_>, b: &AnyNumber<'_>) -> Ordering
    ensures { result ≡ int_cmp (worth a.now) (worth b.now) }
{
    match (a, b) {
        (
            AnyNumber::Written {
                decimal,
                is_negated,
            },
            AnyNumber::Written {
                decimal: other,
                is_negated: is_other_negated,
            },
        ) => decimal.compare_turned(*is_negated, other, *is_other_negated),
        (
            AnyNumber::Written {
                decimal,
                is_negated,
            },
            AnyNumber::Count(count),
        ) => { compare_with_count(decimal, *is_negated, *count) }
        (
            AnyNumber::Count(count),
            AnyNumber::Written {
                decimal,
                is_negated,
            },
        ) => { compare_with_count(decimal, *is_negated, *count).reverse() }
        (AnyNumber::Count(count), AnyNumber::Count(other)) => count.cmp(other),
    }
}

/// Compares a number, negated if `is_negated`, with a count.
fn compare_with_count(decimal: &Decimal<'_>, is_negated: bool, count: i64) -> Ordering
    ensures { result ≡
        int_cmp (turned is_negated (units decimal.now.text.now)) (whole_units count) }
{
    if !is_negated {
        return decimal.compare_whole(count);
    }
    if count == i64::MIN {
        return decimal.compare_turned(true, &least_count(), false);
    }
    decimal.compare_whole(-count).reverse()
}

/// Returns the least count as a number, since its negative isn't a count.
fn least_count() -> Decimal<'static>
    ensures { units result.text.now ≡ whole_units i64.MIN }
{
    Decimal::from_number(b"-9223372036854775808")
}
