//! Copies of values that are read more than once.

ghost use Rattle.std.specs.Prelude.{◌≡◌, IfOk};
ghost use Rattle.express_logic.specs.Views.{datum_of};
ghost use Rattle.rule_values.specs.Parts.{holding};

use crate::part::Part;
use express_logic::datum::Datum;
use std::alloc::{AllocError, Global};

/// Returns a copy of `value`.
pub fn copied<'p, 'r>(
    alloc: Global,
    value: &Datum<'r, Part<'p, 'r>>,
) -> Result<Datum<'r, Part<'p, 'r>>, AllocError>
    ensures { IfOk result (λ d. datum_of holding d ≡ datum_of holding value.now) }
{
    match value {
        Datum::Typed(part) => Ok(Datum::Typed(part.again(alloc)?)),
        Datum::Aggregate(part) => Ok(Datum::Aggregate(part.again(alloc)?)),
        Datum::Indeterminate => Ok(Datum::Indeterminate),
        Datum::Number(number) => Ok(Datum::Number(*number)),
        Datum::Minus(number) => Ok(Datum::Minus(*number)),
        Datum::Count(number) => Ok(Datum::Count(*number)),
        Datum::Text(text) => Ok(Datum::Text(*text)),
        Datum::Items(text) => Ok(Datum::Items(*text)),
        Datum::Encoded(text) => Ok(Datum::Encoded(*text)),
        Datum::Bits(bits) => Ok(Datum::Bits(*bits)),
        Datum::Flags(bits) => Ok(Datum::Flags(*bits)),
        Datum::Element(word) => Ok(Datum::Element(*word)),
        Datum::Logical(logical) => Ok(Datum::Logical(*logical)),
        Datum::Instance(name) => Ok(Datum::Instance(*name)),
    }
}
