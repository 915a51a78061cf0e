//! The positions of rows by their names, which are distinct.

ghost use Rattle.std.specs.Prelude.{
  ◌≡◌,
  ◌<◌,
  ◌^◌,
  ◌↔◌,
  nat_eq,
  length,
  IfOk,
  IfErr,
  IsTrue,
  List,
};
ghost use Rattle.std.specs.List.{All, IsDistinct};
ghost use Rattle.value_equality.specs.steps.ComputedPlaces.{Finds};
ghost use Rattle.value_equality.specs.steps.Faults.{IsFaultOf};
ghost use Rattle.value_equality.specs.Rows.{Row, names as names_of};

use crate::fault::PlainFault;
use population_rows::index::RowIndex;
use std::alloc::Global;
use std::hash::RandomState;

/// The most rows that a population may have, so that 32 bits are enough for the numbers of classes.
const MOST_ROWS: usize = 4_294_967_295;

/// Returns the positions of these names. Hashing uses `keys`.
///
/// # Errors
///
/// - `TooManyRows` if there are more than 2^32 - 1 names;
/// - `DuplicateRow` if otherwise a name occurs twice;
/// - `Memory` if memory runs out.
pub(crate) fn places_of(
    alloc: Global,
    keys: RandomState,
    names: &[u64],
) -> Result<RowIndex, PlainFault>
    ensures places { IfOk result (λ index. Finds index names.now) }
    ensures few { IfOk result (λ _. length names.now < 4294967296) }
    ensures distinct { IfOk result (λ _. IsDistinct nat_eq names.now) }
    ensures range { IfOk result (λ _. All (λ y. y < 2 ^ 64) names.now) }
    ensures fault { IfErr result (λ e. (rows : List Row) → names_of rows ≡ names.now
        → IsFaultOf rows e) }
{
    if names.len() > MOST_ROWS {
        return Err(PlainFault::TooManyRows);
    }
    let places = RowIndex::of(alloc, keys, names)?;
    if !is_each_in_place(&places, names) {
        return Err(PlainFault::DuplicateRow);
    }
    Ok(places)
}

/// Whether each name is found at its own position. Of equal names the first is found.
fn is_each_in_place(places: &RowIndex, names: &[u64]) -> bool
    requires places { Finds places.now names.now }
    ensures distinct { IsTrue result ↔ IsDistinct nat_eq names.now }
    ensures range { IsTrue result → All (λ y. y < 2 ^ 64) names.now }
{
    for n in 0..names.len() {
        let Some(place) = places.find(names[n]) else {
            return false;
        };
        if place as usize != n {
            return false;
        }
    }
    true
}
