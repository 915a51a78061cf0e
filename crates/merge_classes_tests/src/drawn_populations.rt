//! Random populations.

use crate::plain_refinement::refined;
use merge_classes::classes::refine;
use std::alloc::{AllocError, Global};
use std::collections::BTreeSet;
use std::hash::RandomState;
use step_literals::literal::{Decimal, Word};
use step_values::value::PlainValue;
use value_equality::plain::Plain;
use value_equality::row::PlainRow;

/// The number of populations.
const POPULATIONS: u64 = 10_000;

/// Pseudo-random numbers, by a linear congruence.
#[derive(Drop)]
struct Lots {
    state: u64,
}

impl Lots {
    /// Returns a number below `limit`; 0 if `limit` is 0.
    fn below(&mut self, limit: u64) -> u64 {
        self.state = self
            .state
            .wrapping_mul(6_364_136_223_846_793_005)
            .wrapping_add(1_442_695_040_888_963_407);
        (self.state >> 33).checked_rem(limit).unwrap_or(0)
    }
}

/// Returns one of three numbers, two of which are equal.
fn number(lots: &mut Lots) -> PlainValue<'static> {
    let text: &'static [u8] = match lots.below(3) {
        0 => b"1.",
        1 => b"1.0E0",
        _ => b"2.",
    };
    match Decimal::read(text) {
        Ok(number) => PlainValue::Number(number),
        Err(_) => PlainValue::Unset,
    }
}

/// Returns a reference to one of the first `rows` rows.
fn reference(lots: &mut Lots, rows: u64) -> PlainValue<'static> {
    PlainValue::Reference(lots.below(rows).saturating_mul(3).saturating_add(1))
}

/// Returns two references, in a sequence or in a bag.
fn references(
    alloc: Global,
    lots: &mut Lots,
    rows: u64,
    is_bag: bool,
) -> Result<PlainValue<'static>, AllocError> {
    let mut values: Vec<PlainValue<'static>> = Vec::new(alloc);
    values.push(reference(lots, rows))?;
    values.push(reference(lots, rows))?;
    if is_bag {
        Ok(PlainValue::Bag(values))
    } else {
        Ok(PlainValue::Sequence(values))
    }
}

fn value(alloc: Global, lots: &mut Lots, rows: u64) -> Result<PlainValue<'static>, AllocError> {
    match lots.below(8) {
        0 | 1 => Ok(number(lots)),
        2 => references(alloc, lots, rows, true),
        3 => references(alloc, lots, rows, false),
        4 => Ok(PlainValue::Unset),
        _ => Ok(reference(lots, rows)),
    }
}

fn values(
    alloc: Global,
    lots: &mut Lots,
    rows: u64,
) -> Result<Vec<PlainValue<'static>>, AllocError> {
    let mut all: Vec<PlainValue<'static>> = Vec::new(alloc);
    for _ in 0..lots.below(3) {
        all.push(value(alloc, lots, rows)?)?;
    }
    Ok(all)
}

/// Returns one of two types.
fn types(alloc: Global, lots: &mut Lots) -> Result<Vec<Word<'static>>, AllocError> {
    let mut types: Vec<Word<'static>> = Vec::new(alloc);
    let text: &'static [u8] = if lots.below(4) == 0 { b"B" } else { b"A" };
    if let Ok(word) = Word::read(text) {
        types.push(word)?;
    }
    Ok(types)
}

fn row(
    alloc: Global,
    lots: &mut Lots,
    rows: u64,
    place: u64,
) -> Result<PlainRow<'static>, AllocError> {
    let section = if lots.below(6) == 5 { 1 } else { 0 };
    Ok(PlainRow {
        name: place.saturating_mul(3).saturating_add(1),
        section,
        types: types(alloc, lots)?,
        values: values(alloc, lots, rows)?,
    })
}

/// Returns 1 to 9 rows.
fn rows(alloc: Global, lots: &mut Lots) -> Result<Vec<PlainRow<'static>>, AllocError> {
    let count = lots.below(9).saturating_add(1);
    let mut all: Vec<PlainRow<'static>> = Vec::new(alloc);
    for place in 0..count {
        all.push(row(alloc, lots, count, place)?)?;
    }
    Ok(all)
}

/// Returns names of rows, and names that no row has.
fn pins(alloc: Global, lots: &mut Lots) -> Result<BTreeSet<u64>, AllocError> {
    let mut pinned = BTreeSet::new(alloc);
    for _ in 0..lots.below(3) {
        let name = lots.below(12).saturating_mul(3).saturating_add(1);
        let _is_new = pinned.insert(name)?;
    }
    Ok(pinned)
}

/// Whether both refinements find the same table.
fn is_found(
    alloc: Global,
    keys: RandomState,
    input: &Plain<'static>,
    pinned: &BTreeSet<u64>,
) -> Result<bool, AllocError> {
    let wanted = refined(alloc, input, pinned)?;
    let classes = refine(alloc, keys, input, pinned)?;
    Ok(*classes.split_table() == wanted)
}

/// Whether both refinements find the same table under random pins.
fn is_found_under(
    alloc: Global,
    keys: RandomState,
    input: &Plain<'static>,
    lots: &mut Lots,
) -> Result<bool, AllocError> {
    let pinned = pins(alloc, lots)?;
    is_found(alloc, keys, input, &pinned)
}

/// Whether both refinements find the same table for the population of a seed.
fn is_right(alloc: Global, keys: RandomState, seed: u64) -> bool {
    let mut lots = Lots { state: seed };
    let Ok(rows) = rows(alloc, &mut lots) else {
        return false;
    };
    match Plain::from_rows(alloc, keys, rows) {
        Ok(input) => is_found_under(alloc, keys, &input, &mut lots).unwrap_or(false),
        Err(_) => false,
    }
}

/// Returns the first seed for which the two refinements find different tables, if any.
pub(crate) fn wrong_seed(alloc: Global, keys: RandomState) -> Option<u64> {
    for seed in 0..POPULATIONS {
        if !is_right(alloc, keys, seed) {
            return Some(seed);
        }
    }
    None
}
