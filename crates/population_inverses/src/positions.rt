//! The positions of inverted attributes among the values of instances.

ghost use Rattle.std.specs.Prelude.{◌≡◌, IfOk, is_some, map};
ghost use Rattle.std.specs.List.{list_any};
ghost use Rattle.population_inverses.specs.InverseReferences.{position_at, position_by};

use population_rows::form::Form;
use schema_constraints::inverses::InverseAttribute;
use std::alloc::{AllocError, Global};
use typed_populations::accessors::position_of;

/// Returns the position of the inverted attribute in `form`; `None` if the entity that refers isn't
/// a type of the form.
fn position_by(inverse: &InverseAttribute<'_>, form: &Form) -> Option<usize>
    ensures { result ≡ position_by inverse.now form.now }
{
    if form.types.contains(&inverse.referrer) {
        position_of(&form.slots, inverse.inverted)
    } else {
        None
    }
}

/// Returns, for each of `forms`, the position of the inverted attribute, if any.
pub(crate) fn positions(
    alloc: Global,
    inverse: &InverseAttribute<'_>,
    forms: &[Form],
) -> Result<Vec<Option<usize>>, AllocError>
    ensures { IfOk result (λ t. t.items ≡ map (position_by inverse.now) forms.now) }
{
    let mut positions = Vec::with_capacity(alloc, forms.len())?;
    for form in forms {
        positions.push(position_by(inverse, form))?;
    }
    Ok(positions)
}

/// Whether some form has the inverted attribute.
pub(crate) fn is_somewhere(positions: &[Option<usize>]) -> bool
    ensures { result ≡ list_any is_some positions.now }
{
    positions.iter().any(|position| position.is_some())
}

/// Returns the position of the inverted attribute in the form with this number, if any.
pub(crate) fn position_at(positions: &[Option<usize>], form: Option<u32>) -> Option<usize>
    ensures { result ≡ position_at positions.now form }
{
    match form {
        Some(number) => positions.get(number as usize).copied().flatten(),
        None => None,
    }
}
