//! Rows by name.

ghost use Rattle.std.specs.Prelude.{
  ◌≡◌,
  ◌<◌,
  ◌+◌,
  ◌^◌,
  ◌≤◌,
  None,
  Some,
  cond,
  get_or,
  nat_eq,
  set,
  ℕ,
  length,
  map,
  take,
  EachIndex,
  IfOk,
  IfSome,
  OnOk,
  slice_index,
};
ghost use Rattle.indexmap.specs.IndexMap.{get};
ghost use Rattle.population_rows.specs.Index.{place_of, dense_at, found, told};
ghost use Rattle.population_rows.specs.steps.Noting.{earlier};

use indexmap::IndexMap;
use std::alloc::{AllocError, Global};
use std::hash::RandomState;

/// The row of each name. If the range of the names is small compared to their count, as in a file
/// whose instances are numbered from 1, rows are in a list. Otherwise names are hashed, with keys
/// that the author of a text doesn't know.
#[derive(Drop)]
pub enum RowIndex {
    /// At each name, less the least one: the row counted from 1, or 0 if there is none.
    Dense { least: u64, rows: Vec<u32> },
    Hashed(IndexMap<u64, u32, RandomState>),
}

/// The range of the names of a dense index is at most about this many times their count.
const SPREAD: u64 = 4;

impl RowIndex {
    /// Returns an index that maps each name to the first row with that name, counted from 0.
    pub fn of(alloc: Global, keys: RandomState, names: &[u64]) -> Result<RowIndex, AllocError>
        requires few { length names.now < 2 ^ 32 }
        ensures { IfOk result (λ t. (y : ℕ) → found t y ≡ place_of names.now y) }
    {
        match dense_range(names) {
            Some((least, width)) => {
                let rows = dense_rows(alloc, least, width, names)?;
                Ok(RowIndex::Dense { least, rows })
            }
            None => Ok(RowIndex::Hashed(hashed_rows(alloc, keys, names)?)),
        }
    }

    /// Returns the first row with this name, counted from 0, if any.
    pub fn find(&self, name: u64) -> Option<u32>
        ensures { result ≡ found self.now name }
    {
        match self {
            RowIndex::Dense { least, rows } => dense_row(*least, rows, name),
            RowIndex::Hashed(rows) => rows.get(&name).copied(),
        }
    }
}

/// Returns the least name and the length of the range of names, if the range is small compared to
/// the count.
fn dense_range(names: &[u64]) -> Option<(u64, usize)>
    requires few { length names.now < 2 ^ 32 }
    ensures { IfSome result (λ r. EachIndex names.now (λ k. (r.0 ≤ slice_index names.now k)
        × (slice_index names.now k < r.0 + r.1))) }
{
    let least = names.iter().copied().min()?;
    let greatest = names.iter().copied().max()?;
    let span = greatest - least;
    if span / SPREAD < names.len() as u64 {
        Some((least, span as usize + 1))
    } else {
        None
    }
}

/// Enters the row at an index, unless an earlier row is there.
fn note(rows: &mut Vec<u32>, place: usize, row: u32)
    requires within { place < length rows.now.items }
    requires few { row + 1 < 2 ^ 32 }
    ensures { map told rows.new.items ≡ set (map told rows.old.items) place
        (Some (earlier (get_or (map told rows.old.items) place None) row)) }
{
    if rows[place] == 0 {
        rows[place] = row + 1;
    }
}

/// Returns the first row of each name, indexed by name less the least one.
fn dense_rows(
    alloc: Global,
    least: u64,
    width: usize,
    names: &[u64],
) -> Result<Vec<u32>, AllocError>
    requires few { length names.now < 2 ^ 32 }
    requires within { EachIndex names.now (λ k. (least ≤ slice_index names.now k)
        × (slice_index names.now k < least + width)) }
    ensures { IfOk result (λ rows. (y : ℕ)
        → dense_at least (map told rows.items) y ≡ place_of names.now y) }
{
    let mut rows = vec![in alloc; 0u32; width]?;
    for n in 0..names.len() {
        note(&mut rows, (names[n] - least) as usize, n as u32);
    }
    Ok(rows)
}

/// Returns the row of `name` in a list whose first element belongs to the name `least`.
fn dense_row(least: u64, rows: &[u32], name: u64) -> Option<u32>
    ensures { result ≡ dense_at least (map told rows.now) name }
{
    let place = name.checked_sub(least)?;
    let told = *rows.get(place as usize)?;
    told.checked_sub(1)
}

/// Adds the row of a name, unless the name has one.
fn add(rows: &mut IndexMap<u64, u32, RandomState>, name: u64, row: u32) -> Result<(), AllocError>
    ensures { OnOk result ((y : ℕ) → get nat_eq rows.new y ≡ cond (nat_eq name y)
        (Some (earlier (get nat_eq rows.old y) row)) (get nat_eq rows.old y)) }
{
    if rows.get(&name).is_none() {
        rows.insert(name, row)?;
    }
    Ok(())
}

/// Returns the first row of each name, by hashing.
fn hashed_rows(
    alloc: Global,
    keys: RandomState,
    names: &[u64],
) -> Result<IndexMap<u64, u32, RandomState>, AllocError>
    requires few { length names.now < 2 ^ 32 }
    ensures { IfOk result (λ rows. (y : ℕ) → get nat_eq rows y ≡ place_of names.now y) }
{
    let mut rows = IndexMap::with_capacity_and_hasher(alloc, names.len(), keys)?;
    for n in 0..names.len() {
        add(&mut rows, names[n], n as u32)?;
    }
    Ok(rows)
}
