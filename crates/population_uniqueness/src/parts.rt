//! The parts of keys.

ghost use Rattle.std.specs.Prelude.{◌≡◌, IfOk};
ghost use Rattle.step_values.specs.steps.Slots.{nth};
ghost use Rattle.conformance.specs.RuleFindings.{given};
ghost use Rattle.population_uniqueness.specs.steps.Parts.{parts_at};
ghost use Rattle.population_uniqueness.specs.steps.Keys.{IsKey, forms_in};

use std::alloc::{AllocError, Global};
use step_values::labels::Itself;
use step_values::normal::{Normal, normal_form};
use step_values::slot::{Kind, Slot, Slots};

/// Returns the value at `position`, if there is one that is neither unset nor derived.
fn given_at<'p, 'a>(values: &Slots<'p, 'a>, position: usize) -> Option<Slot<'p, 'a>>
    ensures { result ≡ given (nth values.now position) }
{
    let Some(value) = values.item(position) else {
        return None;
    };
    match value.kind() {
        Kind::Unset | Kind::Derived => None,
        _ => Some(value),
    }
}

/// Returns the normal forms of the values at `positions`, in order; `None` if one of them is
/// missing, unset or derived.
pub(crate) fn parts_at<'p, 'a: 'c, 'c>(
    alloc: Global,
    values: &Slots<'p, 'a>,
    positions: &[usize],
) -> Result<Option<Vec<Normal<'c>>>, AllocError>
    ensures { IfOk result (λ o. IsKey (parts_at values.now positions.now) (forms_in o)) }
{
    let mut parts = Vec::with_capacity(alloc, positions.len())?;
    for position in positions {
        let Some(value) = given_at(values, *position) else {
            return Ok(None);
        };
        parts.push(normal_form(alloc, &Itself, &value)?)?;
    }
    Ok(Some(parts))
}
