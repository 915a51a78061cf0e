//! The positions of the parts of keys among the values of instances, by form.

ghost use Rattle.std.specs.Prelude.{◌≡◌, IfOk, IfSome, map, option_copied};
ghost use Rattle.population_rows.specs.steps.Positions.{ArePositions};
ghost use Rattle.population_rows.specs.Index.{found};
ghost use Rattle.typed_populations.specs.ValueOrder.{position_among};
ghost use Rattle.population_uniqueness.specs.steps.Positions.{
  numbers_in,
  positions_of,
  positions_by,
  positions_among,
};

use population_rows::form::{Form, SlotForm};
use population_rows::index::RowIndex;
use population_rows::positions::{FEW, positions};
use schema_constraints::uniques::UniqueRule;
use std::alloc::{AllocError, Global};
use std::hash::RandomState;
use typed_populations::accessors::position_of;

/// Returns the position of the explicit attribute numbered `place`, which `index` finds, if any.
fn indexed(index: &RowIndex, place: u32) -> Option<usize>
    ensures { result ≡ found index.now place }
{
    match index.find(place as u64) {
        Some(position) => Some(position as usize),
        None => None,
    }
}

/// Returns the position of the explicit attribute numbered `place` among `slots`, if any. Uses
/// `index` if there is one, otherwise searches `slots`.
fn position_in(slots: &[SlotForm], index: Option<&RowIndex>, place: u32) -> Option<usize>
    requires { IfSome index (λ t. ArePositions slots.now t.now) }
    ensures { result ≡ position_among slots.now place }
{
    match index {
        Some(index) => indexed(index, place),
        None => position_of(slots, place),
    }
}

/// Returns the positions of the explicit attributes numbered `places`, in order; `None` if one
/// isn't among `slots`. Uses `index` if there is one.
fn positions_in_turn(
    alloc: Global,
    slots: &[SlotForm],
    index: Option<&RowIndex>,
    places: &[u32],
) -> Result<Option<Vec<usize>>, AllocError>
    requires { IfSome index (λ t. ArePositions slots.now t.now) }
    ensures { IfOk result (λ o. numbers_in o ≡ positions_of slots.now places.now) }
{
    let mut found = Vec::with_capacity(alloc, places.len())?;
    for place in places {
        let Some(position) = position_in(slots, index, *place) else {
            return Ok(None);
        };
        found.push(position)?;
    }
    Ok(Some(found))
}

/// Returns the positions of the explicit attributes numbered `places`, in order; `None` if one
/// isn't among `slots`. Builds an index if there are more than `FEW` places.
fn positions_of(
    alloc: Global,
    keys: RandomState,
    slots: &[SlotForm],
    places: &[u32],
) -> Result<Option<Vec<usize>>, AllocError>
    ensures { IfOk result (λ o. numbers_in o ≡ positions_of slots.now places.now) }
{
    if places.len() <= FEW {
        return positions_in_turn(alloc, slots, None, places);
    }
    let index = positions(alloc, keys, slots)?;
    positions_in_turn(alloc, slots, Some(&index), places)
}

/// Returns the positions of the attributes of `rule` in `form`; `None` if instances of the form
/// have no key.
fn positions_in(
    alloc: Global,
    keys: RandomState,
    form: &Form,
    rule: &UniqueRule<'_>,
) -> Result<Option<Vec<usize>>, AllocError>
    ensures { IfOk result (λ o. numbers_in o ≡ positions_by rule.now form.now) }
{
    if !form.types.contains(&rule.entity) {
        return Ok(None);
    }
    positions_of(alloc, keys, &form.slots, &rule.places)
}

/// Returns, for each of `forms`, the positions of the attributes of `rule`; `None` if instances of
/// the form have no key. Attributes are hashed by `keys`.
pub(crate) fn positions_by_form(
    alloc: Global,
    keys: RandomState,
    forms: &[Form],
    rule: &UniqueRule<'_>,
) -> Result<Vec<Option<Vec<usize>>>, AllocError>
    ensures { IfOk result (λ v. map numbers_in v.items ≡ map (positions_by rule.now) forms.now) }
{
    let mut all = Vec::with_capacity(alloc, forms.len())?;
    for form in forms {
        all.push(positions_in(alloc, keys, form, rule)?)?;
    }
    Ok(all)
}

/// Returns the positions for the form with this number; `None` if there is no such form or its
/// instances have no key.
pub(crate) fn positions_at(all: &[Option<Vec<usize>>], form: Option<u32>) -> Option<&Vec<usize>>
    ensures { option_copied result ≡ positions_among all.now form }
{
    let Some(number) = form else {
        return None;
    };
    let Some(found) = all.get(number as usize) else {
        return None;
    };
    match found {
        Some(positions) => Some(positions),
        None => None,
    }
}
