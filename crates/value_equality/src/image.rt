//! Whether a map is an image.

ghost use Rattle.std.specs.Prelude.{◌≡◌, ◌↔◌, ℕ, nat_eq, is_some, IfOk, IsTrue, true};
ghost use Rattle.std.specs.BTreeMap.{keys};
ghost use Rattle.std.specs.HashMap.{get as hash_get};
ghost use Rattle.std.specs.HashSet.{contains as hash_contains};
ghost use Rattle.std.specs.List.{list_all, list_any};
ghost use Rattle.std.specs.Ordering.{nat_cmp, eq_by_cmp};
ghost use Rattle.value_equality.specs.steps.ComputedImages.{
  Lands,
  IsOnto,
  LeavesAlone,
  lands_by,
  is_reached,
  source_by,
  is_source,
  is_source_by,
};
ghost use Rattle.step_values.specs.Maps.{led_by};
ghost use Rattle.value_equality.specs.Maps.{is_key, is_pinned, IsMapImage};
ghost use Rattle.value_equality.specs.Rows.{row_at, IsName};
ghost use Rattle.value_equality.specs.Views.{row_seen};

use crate::plain::Plain;
use crate::row::{RowSlot, is_one_kind};
use std::alloc::{AllocError, Global};
use std::collections::{BTreeSet, HashMap, HashSet};
use std::hash::RandomState;
use step_values::labels::{Itself, Map, lead};
use step_values::value_agreement::same_each;

/// Whether the map is an image of the first population on the second.
///
/// It is one if
/// - its keys are the names of the first population;
/// - it keeps sections, types, values and references;
/// - each name of the second population is an image;
/// - it maps no other instance to the image of a pinned one.
///
/// Names are hashed with `keys`.
pub fn is_image<'p, 'q>(
    alloc: Global,
    keys: RandomState,
    p: &Plain<'p>,
    q: &Plain<'q>,
    map: &Map,
    pinned: &BTreeSet<u64>,
) -> Result<bool, AllocError>
    ensures { IfOk result (λ b. IsTrue b ↔ IsMapImage p.now q.now map.now (is_pinned pinned.now)) }
{
    if !has_domain(map, p) {
        return Ok(false);
    }
    if !rows_land(alloc, map, p, q)? {
        return Ok(false);
    }
    if !is_onto(alloc, keys, map, p, q)? {
        return Ok(false);
    }
    leaves_alone(alloc, keys, map, p, pinned)
}

/// Whether the keys of the map are the names of the rows.
fn has_domain<'a>(map: &Map, p: &Plain<'a>) -> bool
    ensures { IsTrue result ↔ ((y : ℕ) → (is_key map.now y ≡ true) ↔ IsName p.now y) }
{
    if keys_are_names(map, p) {
        names_are_keys(map, p)
    } else {
        false
    }
}

/// Whether each key of the map is the name of a row.
fn keys_are_names<'a>(map: &Map, p: &Plain<'a>) -> bool
    ensures all { result ≡ list_all (λ y. is_some (row_at p.now y)) (keys map.now) }
    ensures keys { (y : ℕ) → is_key map.now y ≡ list_any (eq_by_cmp nat_cmp y) (keys map.now) }
{
    map.keys().all(|name| p.contains(*name))
}

/// Whether the name of each row is a key of the map.
fn names_are_keys<'a>(map: &Map, p: &Plain<'a>) -> bool
    ensures { result ≡ list_all (λ r. is_key map.now r.name) p.now }
{
    for place in 0..p.len() {
        if !map.contains_key(&p.name(place)) {
            return false;
        }
    }
    true
}

/// Whether the map maps each row to one of its kind, with values that agree.
fn rows_land<'p, 'q>(
    alloc: Global,
    map: &Map,
    p: &Plain<'p>,
    q: &Plain<'q>,
) -> Result<bool, AllocError>
    ensures { IfOk result (λ b. IsTrue b ↔ Lands p.now q.now (led_by map.now)) }
{
    for place in 0..p.len() {
        if !row_lands(alloc, map, &p.row(place), q)? {
            return Ok(false);
        }
    }
    Ok(true)
}

/// Whether the map maps a row to one of its kind, with values that agree.
fn row_lands<'p, 'a, 'q>(
    alloc: Global,
    map: &Map,
    row: &RowSlot<'p, 'a>,
    q: &Plain<'q>,
) -> Result<bool, AllocError>
    ensures { IfOk result (λ b. b ≡ lands_by map.now q.now (row_seen row.now)) }
{
    let Some(place) = q.find(lead(map, row.name)) else {
        return Ok(false);
    };
    let other = q.row(place);
    if !is_one_kind(row, &other) {
        return Ok(false);
    }
    same_each(alloc, map, &Itself, &row.values, &other.values)
}

/// Whether each row of the second population is the image of one of the first.
fn is_onto<'p, 'q>(
    alloc: Global,
    keys: RandomState,
    map: &Map,
    p: &Plain<'p>,
    q: &Plain<'q>,
) -> Result<bool, AllocError>
    ensures { IfOk result (λ b. IsTrue b ↔ IsOnto p.now q.now (led_by map.now)) }
{
    let reached = reached(alloc, keys, map, p)?;
    Ok(are_reached(&reached, q))
}

/// Returns the names to which the map maps the rows.
fn reached<'a>(
    alloc: Global,
    keys: RandomState,
    map: &Map,
    p: &Plain<'a>,
) -> Result<HashSet<u64, RandomState>, AllocError>
    ensures { IfOk result
        (λ s. (y : ℕ) → hash_contains nat_eq s y ≡ is_reached map.now p.now y) }
{
    let mut reached = HashSet::with_hasher(alloc, keys);
    for place in 0..p.len() {
        reached.insert(lead(map, p.name(place)))?;
    }
    Ok(reached)
}

/// Whether the name of each row is in `reached`.
fn are_reached<'a>(reached: &HashSet<u64, RandomState>, q: &Plain<'a>) -> bool
    ensures { result ≡ list_all (λ r. hash_contains nat_eq reached.now r.name) q.now }
{
    for place in 0..q.len() {
        if !reached.contains(&q.name(place)) {
            return false;
        }
    }
    true
}

/// Whether the map maps no other row to the image of a pinned one.
fn leaves_alone<'a>(
    alloc: Global,
    keys: RandomState,
    map: &Map,
    p: &Plain<'a>,
    pinned: &BTreeSet<u64>,
) -> Result<bool, AllocError>
    ensures { IfOk result
        (λ b. IsTrue b ↔ LeavesAlone p.now (led_by map.now) (is_pinned pinned.now)) }
{
    let sources = pinned_sources(alloc, keys, map, p, pinned)?;
    Ok(are_sources(&sources, map, p))
}

/// Returns, for each name to which the map maps a pinned row, the last such row.
fn pinned_sources<'a>(
    alloc: Global,
    keys: RandomState,
    map: &Map,
    p: &Plain<'a>,
    pinned: &BTreeSet<u64>,
) -> Result<HashMap<u64, u64, RandomState>, AllocError>
    ensures { IfOk result
        (λ s. (y : ℕ) → hash_get nat_eq s y ≡ source_by map.now pinned.now p.now y) }
{
    let mut sources = HashMap::with_hasher(alloc, keys);
    for place in 0..p.len() {
        let name = p.name(place);
        if pinned.contains(&name) {
            sources.insert(lead(map, name), name)?;
        }
    }
    Ok(sources)
}

/// Whether each row that the map maps to the image of a pinned one is that one.
fn are_sources<'a>(sources: &HashMap<u64, u64, RandomState>, map: &Map, p: &Plain<'a>) -> bool
    ensures { result ≡ list_all (is_source_by sources.now map.now) p.now }
{
    for place in 0..p.len() {
        if !is_source(sources, map, p.name(place)) {
            return false;
        }
    }
    true
}

/// Whether the row with this name is the pinned one at its image, if any.
fn is_source(sources: &HashMap<u64, u64, RandomState>, map: &Map, name: u64) -> bool
    ensures { result ≡ is_source (hash_get nat_eq sources.now (led_by map.now name)) name }
{
    match sources.get(&lead(map, name)) {
        None => true,
        Some(source) => *source == name,
    }
}
