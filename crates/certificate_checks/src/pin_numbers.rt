//! Numbers that distinguish each pinned instance from all other instances.

ghost use Rattle.std.specs.Prelude.{◌≡◌, ◌<◌, length, IfOk};
ghost use Rattle.value_equality.specs.Maps.{is_pinned};
ghost use Rattle.certificate_checks.specs.steps.ComputedSplits.{AreOwn, own_at};

use std::alloc::{AllocError, Global};
use std::collections::BTreeSet;
use value_equality::plain::Plain;

/// Returns, by position, 0 for a free instance; for a pinned one its own position, counted from 1.
pub(crate) fn own_numbers<'a>(
    alloc: Global,
    input: &Plain<'a>,
    pinned: &BTreeSet<u64>,
) -> Result<Vec<u32>, AllocError>
    ensures { IfOk result
        (λ v. AreOwn input.now (is_pinned pinned.now) v.items (length input.now)) }
{
    let mut numbers = Vec::with_capacity(alloc, input.len())?;
    for place in 0..input.len() {
        let number = own_number(input, pinned, place);
        numbers.push(number)?;
    }
    Ok(numbers)
}

/// Returns 0 if the instance at position `place` is free; otherwise its position, counted from 1.
fn own_number<'a>(input: &Plain<'a>, pinned: &BTreeSet<u64>, place: usize) -> u32
    requires { place < length input.now }
    ensures { result ≡ own_at input.now (is_pinned pinned.now) place }
{
    // its contract says that there are fewer than 2^32 rows
    let _rows = input.len();
    let name = input.name(place);
    if pinned.contains(&name) {
        return place as u32 + 1;
    }
    0
}
