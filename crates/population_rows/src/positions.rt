//! The positions of attributes in a form, by the numbers of the explicit attributes.

ghost use Rattle.std.specs.Prelude.{◌≡◌, map, IfOk};
ghost use Rattle.population_rows.specs.declared.form.SlotForm.{SlotForm};
ghost use Rattle.population_rows.specs.steps.Positions.{ArePositions};

use crate::form::SlotForm;
use crate::index::RowIndex;
use std::alloc::{AllocError, Global};
use std::hash::RandomState;

/// The greatest number of attributes of a form that are searched one by one.
pub const FEW: usize = 16;

/// The greatest number of attributes that a form with an index may have.
const MOST: usize = 4_294_967_295;

/// Returns the numbers of these explicit attributes, in order.
fn places_of(alloc: Global, slots: &[SlotForm]) -> Result<Vec<u64>, AllocError>
    ensures { IfOk result (λ v. v.items ≡ map (λ (x : SlotForm). x.place) slots.now) }
{
    let mut places = Vec::with_capacity(alloc, slots.len())?;
    for slot in slots {
        places.push(slot.place as u64)?;
    }
    Ok(places)
}

/// Returns an index that maps the number of each explicit attribute to its first position among
/// `slots`, counted from 0.
///
/// Fails with `AllocError` if memory runs out, and if there are more than 2^32 - 1 attributes.
pub fn positions(
    alloc: Global,
    keys: RandomState,
    slots: &[SlotForm],
) -> Result<RowIndex, AllocError>
    ensures { IfOk result (ArePositions slots.now) }
{
    if slots.len() > MOST {
        return Err(AllocError);
    }
    let places = places_of(alloc, slots)?;
    RowIndex::of(alloc, keys, &places)
}
