//! Births of classes, as numbers that order them by round, then by place.

ghost use Rattle.std.specs.Prelude.{ℕ, ◌≡◌, ◌<◌, ◌/◌, ◌%◌, IfOk, length, slice_index};
ghost use Rattle.partition_refinement.specs.steps.Working.{AreBirths, AreKeys, IsIndex};

use crate::first_places::filled;
use partitions::groups::in_groups;
use std::alloc::{AllocError, Global};

/// The factor of the round in a birth: a birth is its round times `PLACES`, plus its place.
const PLACES: u64 = 4_294_967_296;

/// Returns the round of a birth.
pub(crate) fn round_of(birth: u64) -> u32
    ensures { result ≡ birth / 4294967296 }
{
    (birth / PLACES) as u32
}

/// Returns the place of a birth.
pub(crate) fn place_of(birth: u64) -> u32
    ensures { result ≡ birth % 4294967296 }
{
    (birth % PLACES) as u32
}

/// Returns the births of the places whose round is below `limit`. Births of one round are adjacent,
/// so little is left to sort.
fn keys(alloc: Global, rounds: &[u32], limit: u32) -> Result<Vec<u64>, AllocError>
    requires { length rounds.now < 4294967296 }
    ensures { IfOk result (λ v. AreKeys rounds.now limit (length rounds.now) v.items) }
{
    let places = in_groups(alloc, rounds)?;
    let mut keys = Vec::new(alloc);
    for place in &places {
        let round = rounds[*place as usize];
        if round < limit {
            keys.push(u64::from(round) * PLACES + u64::from(*place))?;
        }
    }
    Ok(keys)
}

/// Returns the births of the places whose round is below `limit`, by round, then by place.
pub(crate) fn births(alloc: Global, rounds: &[u32], limit: u32) -> Result<Vec<u64>, AllocError>
    requires { length rounds.now < 4294967296 }
    ensures { IfOk result (λ v. AreBirths rounds.now limit v.items) }
{
    let mut births = keys(alloc, rounds, limit)?;
    births.sort_unstable();
    Ok(births)
}

/// Returns by place its index among the births.
pub(crate) fn numbers(alloc: Global, births: &[u64], size: u32) -> Result<Vec<u32>, AllocError>
    requires places { (c : ℕ) → c < length births.now
        → slice_index births.now c % 4294967296 < size }
    requires few { length births.now < 4294967296 }
    ensures length { IfOk result (λ v. length v.items ≡ size) }
    ensures index { IfOk result (λ v. IsIndex births.now v.items (length births.now)) }
{
    let mut numbers = filled(alloc, size as usize, 0)?;
    for number in 0..births.len() {
        numbers[place_of(births[number]) as usize] = number as u32;
    }
    Ok(numbers)
}
