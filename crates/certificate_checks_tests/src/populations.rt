//! Small populations, written by hand.

use std::alloc::Global;
use std::collections::BTreeSet;
use std::hash::RandomState;
use step_literals::literal::{Decimal, Word};
use step_values::value::PlainValue;
use value_equality::fault::PlainFault;
use value_equality::plain::Plain;
use value_equality::row::PlainRow;

/// A value.
#[derive(Clone, Copy)]
pub(crate) enum Sketch {
    Number(&'static [u8]),
    Reference(u64),
}

/// A row's name, section, type and values.
pub(crate) type Row = (u64, u32, &'static [u8], &'static [Sketch]);

pub(crate) type Rows = &'static [Row];

fn number(text: &'static [u8]) -> Option<PlainValue<'static>> {
    match Decimal::read(text) {
        Ok(number) => Some(PlainValue::Number(number)),
        Err(_) => None,
    }
}

fn value(sketch: Sketch) -> Option<PlainValue<'static>> {
    match sketch {
        Sketch::Number(text) => number(text),
        Sketch::Reference(name) => Some(PlainValue::Reference(name)),
    }
}

fn add_values(values: &mut Vec<PlainValue<'static>>, sketches: &[Sketch]) -> bool {
    for sketch in sketches {
        let Some(value) = value(*sketch) else {
            return false;
        };
        if values.push(value).is_err() {
            return false;
        }
    }
    true
}

fn add_type(types: &mut Vec<Word<'static>>, text: &'static [u8]) -> bool {
    match Word::read(text) {
        Ok(word) => types.push(word).is_ok(),
        Err(_) => false,
    }
}

fn add_row(alloc: Global, rows: &mut Vec<PlainRow<'static>>, written: Row) -> bool {
    let (name, section, word, sketches) = written;
    let mut row: PlainRow<'static> = PlainRow {
        name,
        section,
        types: Vec::new(alloc),
        values: Vec::new(alloc),
    };
    let is_whole = add_type(&mut row.types, word) && add_values(&mut row.values, sketches);
    if !is_whole {
        return false;
    }
    rows.push(row).is_ok()
}

fn add_rows(alloc: Global, rows: &mut Vec<PlainRow<'static>>, written: Rows) -> bool {
    for row in written {
        if !add_row(alloc, rows, *row) {
            return false;
        }
    }
    true
}

/// Returns the population of these rows, or its fault. The fault is `Memory` also if the rows can't
/// be written down.
pub(crate) fn population(
    alloc: Global,
    keys: RandomState,
    written: Rows,
) -> Result<Plain<'static>, PlainFault> {
    let mut rows: Vec<PlainRow<'static>> = Vec::new(alloc);
    if !add_rows(alloc, &mut rows, written) {
        return Err(PlainFault::Memory);
    }
    Plain::from_rows(alloc, keys, rows)
}

pub(crate) fn names_of(alloc: Global, names: &[u64]) -> Option<BTreeSet<u64>> {
    let mut set = BTreeSet::new(alloc);
    for name in names {
        if set.insert(*name).is_err() {
            return None;
        }
    }
    Some(set)
}
