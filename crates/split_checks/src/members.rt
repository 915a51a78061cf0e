//! The places of each class.

ghost use Rattle.std.specs.Prelude.{◌≡◌, ◌<◌, ℕ, IfOk, OnOk, [], length, slice_index};
ghost use Rattle.std.specs.List.{All};
ghost use Rattle.split_checks.specs.steps.ComputedMembers.{AddsTo, Hold, row};

use std::alloc::{AllocError, Global};

/// Returns `count` empty lists.
fn empty_lists(alloc: Global, count: usize) -> Result<Vec<Vec<u32>>, AllocError>
    ensures length { IfOk result (λ v. length v.items ≡ count) }
    ensures empty { IfOk result (λ v. (d : ℕ) → row v.items d ≡ []) }
{
    let mut lists = Vec::with_capacity(alloc, count)?;
    for _ in 0..count {
        lists.push(Vec::new(alloc))?;
    }
    Ok(lists)
}

/// Adds a place to the list of a class.
fn add(lists: &mut Vec<Vec<u32>>, class: usize, place: u32) -> Result<(), AllocError>
    requires { class < length lists.old.items }
    ensures { OnOk result (AddsTo class place lists.old.items lists.new.items) }
{
    lists[class].push(place)?;
    Ok(())
}

/// Returns the places of each class. `last` has by place its class, which is below `classes`.
pub(crate) fn members_of(
    alloc: Global,
    classes: usize,
    last: &[u32],
) -> Result<Vec<Vec<u32>>, AllocError>
    requires few { length last.now < 4294967296 }
    requires known { All (λ c. c < classes) last.now }
    ensures length { IfOk result (λ v. length v.items ≡ classes) }
    ensures hold { IfOk result (λ v. Hold v.items (length last.now) (slice_index last.now)) }
{
    let mut lists = empty_lists(alloc, classes)?;
    for place in 0..last.len() {
        add(&mut lists, last[place] as usize, place as u32)?;
    }
    Ok(lists)
}
