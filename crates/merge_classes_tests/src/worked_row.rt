//! A worked row: a thousand nodes, each of which refers to the next, the last one to itself, and a bundle of
//! the last one, which its SET pins.

use merge_classes::classes::{Classes, refine};
use std::alloc::{AllocError, Global};
use std::collections::BTreeSet;
use std::hash::RandomState;
use step_literals::literal::Word;
use step_values::value::PlainValue;
use value_equality::plain::Plain;
use value_equality::row::PlainRow;

/// The number of nodes, and the name of the last one.
const NODES: u64 = 1000;

/// The limit of rows and references that may be examined. Examining each instance in each round
/// would need more than 900,000.
const WORK: u64 = 3000;

fn types(alloc: Global, text: &'static [u8]) -> Result<Vec<Word<'static>>, AllocError> {
    let mut types: Vec<Word<'static>> = Vec::new(alloc);
    if let Ok(word) = Word::read(text) {
        types.push(word)?;
    }
    Ok(types)
}

/// Returns the row of an instance with one value.
fn row(
    alloc: Global,
    name: u64,
    entity: &'static [u8],
    value: PlainValue<'static>,
) -> Result<PlainRow<'static>, AllocError> {
    let mut values: Vec<PlainValue<'static>> = Vec::new(alloc);
    values.push(value)?;
    Ok(PlainRow {
        name,
        section: 0,
        types: types(alloc, entity)?,
        values,
    })
}

fn bundle(alloc: Global) -> Result<PlainRow<'static>, AllocError> {
    let mut members: Vec<PlainValue<'static>> = Vec::new(alloc);
    members.push(PlainValue::Reference(NODES))?;
    row(
        alloc,
        NODES.saturating_add(1),
        b"BUNDLE",
        PlainValue::Bag(members),
    )
}

fn rows(alloc: Global) -> Result<Vec<PlainRow<'static>>, AllocError> {
    let mut all: Vec<PlainRow<'static>> = Vec::new(alloc);
    for place in 0..NODES {
        let name = place.saturating_add(1);
        let next = name.saturating_add(1).min(NODES);
        all.push(row(alloc, name, b"NODE", PlainValue::Reference(next))?)?;
    }
    all.push(bundle(alloc)?)?;
    Ok(all)
}

fn found(alloc: Global, keys: RandomState) -> Result<Option<Classes>, AllocError> {
    let mut pinned = BTreeSet::new(alloc);
    let _is_new = pinned.insert(NODES)?;
    match Plain::from_rows(alloc, keys, rows(alloc)?) {
        Ok(input) => Ok(Some(refine(alloc, keys, &input, &pinned)?)),
        Err(_) => Ok(None),
    }
}

/// Whether each instance has a class of its own after 998 rounds, within the limit of work.
pub(crate) fn is_parted(alloc: Global, keys: RandomState) -> bool {
    match found(alloc, keys) {
        Ok(Some(classes)) => {
            let table = classes.split_table();
            table.rounds == 998 && table.classes.len() == 1001 && classes.signed() <= WORK
        }
        _ => false,
    }
}
