//! Small populations, written by hand, and rows that aren't a population.

use std::alloc::Global;
use std::hash::RandomState;
use step_literals::literal::{Bits, Decimal, Text, Word};
use step_values::value::PlainValue;
use value_equality::fault::PlainFault;
use value_equality::plain::Plain;
use value_equality::row::PlainRow;

/// A step in writing down values: adds a value, or changes the last ones.
#[derive(Clone, Copy)]
pub(crate) enum Sketch {
    Unset,
    Derived,
    Number(&'static [u8]),
    Text(&'static [u8]),
    Bits(&'static [u8]),
    Element(&'static [u8]),
    Reference(u64),
    /// The last value becomes a typed value with this type name.
    Typed(&'static [u8]),
    /// The last values, as many as this count, become one sequence.
    Sequence(usize),
    /// The last values, as many as this count, become one bag.
    Bag(usize),
}

/// Values, step by step.
pub(crate) type Sketches = &'static [Sketch];

/// The type names of a row.
pub(crate) type Words = &'static [&'static [u8]];

/// A row's name, section, types and values.
pub(crate) type Row<'s> = (u64, u32, Words, &'s [Sketch]);

pub(crate) type Rows = &'static [Row<'static>];

/// The steps before and after those of a value.
pub(crate) type Around = (Sketches, Sketches);

pub(crate) const ALONE: Around = (&[], &[]);

/// How a population is written down.
#[derive(Clone, Copy)]
pub(crate) enum Written {
    Rows(Rows),
    /// Three nodes, and a fourth row with this value.
    Holder(Sketches, Around),
    /// This many nodes, each with a reference to the next, and the last with one to the first.
    Ring(u64),
}

const NODE: Words = &[b"NODE"];

const HOLDER: Words = &[b"HOLDER"];

/// `#1=NODE(#1);` `#2=NODE(#2);` `#3=NODE(#3);`
const NODES: Rows = &[
    (1, 0, NODE, &[Sketch::Reference(1)]),
    (2, 0, NODE, &[Sketch::Reference(2)]),
    (3, 0, NODE, &[Sketch::Reference(3)]),
];

fn number(text: &'static [u8]) -> Option<PlainValue<'static>> {
    match Decimal::read(text) {
        Ok(number) => Some(PlainValue::Number(number)),
        Err(_) => None,
    }
}

fn string(text: &'static [u8]) -> Option<PlainValue<'static>> {
    match Text::read(text) {
        Ok(text) => Some(PlainValue::Text(text)),
        Err(_) => None,
    }
}

fn binary(text: &'static [u8]) -> Option<PlainValue<'static>> {
    match Bits::read(text) {
        Ok(bits) => Some(PlainValue::Bits(bits)),
        Err(_) => None,
    }
}

fn element(text: &'static [u8]) -> Option<PlainValue<'static>> {
    match Word::read(text) {
        Ok(word) => Some(PlainValue::Element(word)),
        Err(_) => None,
    }
}

/// Returns the value of a step that has no values inside, if it is one.
fn leaf(sketch: Sketch) -> Option<PlainValue<'static>> {
    match sketch {
        Sketch::Unset => Some(PlainValue::Unset),
        Sketch::Derived => Some(PlainValue::Derived),
        Sketch::Number(text) => number(text),
        Sketch::Text(text) => string(text),
        Sketch::Bits(text) => binary(text),
        Sketch::Element(text) => element(text),
        Sketch::Reference(name) => Some(PlainValue::Reference(name)),
        _ => None,
    }
}

/// Returns a typed value.
fn typed(
    alloc: Global,
    name: &'static [u8],
    value: PlainValue<'static>,
) -> Option<PlainValue<'static>> {
    let Ok(word) = Word::read(name) else {
        return None;
    };
    match Box::new(alloc, value) {
        Ok(value) => Some(PlainValue::Typed(word, value)),
        Err(_) => None,
    }
}

/// Takes the last value, and returns it as a typed value.
fn close_typed(
    alloc: Global,
    values: &mut Vec<PlainValue<'static>>,
    name: &'static [u8],
) -> Option<PlainValue<'static>> {
    match values.pop() {
        Some(value) => typed(alloc, name, value),
        None => None,
    }
}

/// Takes and returns the last `count` values, if there are as many.
fn last(values: &mut Vec<PlainValue<'static>>, count: usize) -> Option<Vec<PlainValue<'static>>> {
    if values.len() < count {
        return None;
    }
    let mark = values.len() - count;
    values.split_off(mark).ok()
}

fn sequence(values: &mut Vec<PlainValue<'static>>, count: usize) -> Option<PlainValue<'static>> {
    match last(values, count) {
        Some(inside) => Some(PlainValue::Sequence(inside)),
        None => None,
    }
}

fn bag(values: &mut Vec<PlainValue<'static>>, count: usize) -> Option<PlainValue<'static>> {
    match last(values, count) {
        Some(inside) => Some(PlainValue::Bag(inside)),
        None => None,
    }
}

/// Returns the value of a step, which may take the last values.
fn made(
    alloc: Global,
    values: &mut Vec<PlainValue<'static>>,
    sketch: Sketch,
) -> Option<PlainValue<'static>> {
    match sketch {
        Sketch::Typed(name) => close_typed(alloc, values, name),
        Sketch::Sequence(count) => sequence(values, count),
        Sketch::Bag(count) => bag(values, count),
        _ => leaf(sketch),
    }
}

fn add_value(alloc: Global, values: &mut Vec<PlainValue<'static>>, sketch: Sketch) -> bool {
    match made(alloc, values, sketch) {
        Some(value) => values.push(value).is_ok(),
        None => false,
    }
}

fn add_values(alloc: Global, values: &mut Vec<PlainValue<'static>>, sketches: &[Sketch]) -> bool {
    for sketch in sketches {
        if !add_value(alloc, values, *sketch) {
            return false;
        }
    }
    true
}

fn add_types(types: &mut Vec<Word<'static>>, words: Words) -> bool {
    for text in words {
        let Ok(word) = Word::read(*text) else {
            return false;
        };
        if types.push(word).is_err() {
            return false;
        }
    }
    true
}

/// Adds the values of a row, and the steps around them.
fn add_within(
    alloc: Global,
    values: &mut Vec<PlainValue<'static>>,
    sketches: &[Sketch],
    around: Around,
) -> bool {
    add_values(alloc, values, around.0)
        && add_values(alloc, values, sketches)
        && add_values(alloc, values, around.1)
}

fn add_row(
    alloc: Global,
    rows: &mut Vec<PlainRow<'static>>,
    written: Row<'_>,
    around: Around,
) -> bool {
    let (name, section, words, sketches) = written;
    let mut row: PlainRow<'static> = PlainRow {
        name,
        section,
        types: Vec::new(alloc),
        values: Vec::new(alloc),
    };
    let is_whole = add_types(&mut row.types, words)
        && add_within(alloc, &mut row.values, sketches, around);
    if !is_whole {
        return false;
    }
    rows.push(row).is_ok()
}

fn add_rows(alloc: Global, rows: &mut Vec<PlainRow<'static>>, written: Rows) -> bool {
    for row in written {
        if !add_row(alloc, rows, *row, ALONE) {
            return false;
        }
    }
    true
}

/// Adds the nodes, and a fourth row with the value.
fn add_holder(
    alloc: Global,
    rows: &mut Vec<PlainRow<'static>>,
    sketches: Sketches,
    around: Around,
) -> bool {
    add_rows(alloc, rows, NODES) && add_row(alloc, rows, (4, 0, HOLDER, sketches), around)
}

/// Returns the name after `name` in a ring of `length` names.
pub(crate) fn next(name: u64, length: u64) -> u64 {
    if name < length { name + 1 } else { 1 }
}

/// Adds `#1=NODE(#2);` `#2=NODE(#3);` and so on, the last one with a reference to `#1`.
fn add_ring(alloc: Global, rows: &mut Vec<PlainRow<'static>>, length: u64) -> bool {
    for name in 1..=length {
        let sketches = [Sketch::Reference(next(name, length))];
        if !add_row(alloc, rows, (name, 0, NODE, sketches.as_slice()), ALONE) {
            return false;
        }
    }
    true
}

fn add_written(alloc: Global, rows: &mut Vec<PlainRow<'static>>, written: Written) -> bool {
    match written {
        Written::Rows(sketches) => add_rows(alloc, rows, sketches),
        Written::Holder(sketches, around) => add_holder(alloc, rows, sketches, around),
        Written::Ring(length) => add_ring(alloc, rows, length),
    }
}

/// Returns the population, or why the rows aren't one. The fault is `Memory` also if the rows can't
/// be written down.
pub(crate) fn population(
    alloc: Global,
    keys: RandomState,
    written: Written,
) -> Result<Plain<'static>, PlainFault> {
    let mut rows: Vec<PlainRow<'static>> = Vec::new(alloc);
    if !add_written(alloc, &mut rows, written) {
        return Err(PlainFault::Memory);
    }
    Plain::from_rows(alloc, keys, rows)
}

/// What is tested, rows that aren't a population, and why.
type Case = (&'static str, Rows, PlainFault);

const FAULTS: &'static [Case] = &[
    (
        "a name twice",
        &[
            (1, 0, &[b"POINT"], &[Sketch::Number(b"1.")]),
            (1, 0, &[b"PLACEMENT"], &[Sketch::Reference(9)]),
        ],
        PlainFault::DuplicateRow,
    ),
    (
        "a reference to nothing",
        &[(1, 0, &[b"PLACEMENT"], &[Sketch::Reference(9)])],
        PlainFault::UnknownReference,
    ),
];

fn has_fault(alloc: Global, keys: RandomState, rows: Rows, fault: PlainFault) -> bool {
    match population(alloc, keys, Written::Rows(rows)) {
        Ok(_) => false,
        Err(other) => other == fault,
    }
}

/// Returns what is tested by the first case with another fault, if any.
pub(crate) fn wrong_case(alloc: Global, keys: RandomState) -> Option<&'static str> {
    for (what, rows, fault) in FAULTS {
        if !has_fault(alloc, keys, *rows, *fault) {
            return Some(*what);
        }
    }
    None
}
