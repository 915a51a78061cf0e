//! Rows that each refer to the one before.

use merge_classes::classes::{Classes, refine};
use std::alloc::{AllocError, Global};
use std::collections::BTreeSet;
use std::hash::RandomState;
use step_values::value::PlainValue;
use value_equality::plain::Plain;
use value_equality::row::PlainRow;
use value_equality::table::Origin;

/// The number of rows.
const SIZE: u32 = 2000;

/// Returns a row that refers to the one before; the first row has no value.
fn row(alloc: Global, place: u32) -> Result<PlainRow<'static>, AllocError> {
    let mut values: Vec<PlainValue<'static>> = Vec::new(alloc);
    match u64::from(place).checked_sub(1) {
        Some(before) => values.push(PlainValue::Reference(before))?,
        None => values.push(PlainValue::Unset)?,
    }
    Ok(PlainRow {
        name: u64::from(place),
        section: 0,
        types: Vec::new(alloc),
        values,
    })
}

fn rows(alloc: Global) -> Result<Vec<PlainRow<'static>>, AllocError> {
    let mut all: Vec<PlainRow<'static>> = Vec::new(alloc);
    for place in 0..SIZE {
        all.push(row(alloc, place)?)?;
    }
    Ok(all)
}

/// Whether class `number` began as it has to: split off the class before it, in the round of its
/// number.
fn has_begun(classes: &Classes, number: u32) -> bool {
    let wanted = match number.checked_sub(1) {
        None => Origin::Start,
        Some(parent) => Origin::Split {
            parent,
            round: number,
        },
    };
    classes.split_table().classes.get(number as usize).copied() == Some(wanted)
        && classes.head_of(number) == Some(u64::from(number))
}

/// Whether all classes began as they have to, and each row has the class of its place.
fn are_parted(classes: &Classes) -> bool {
    for number in 0..SIZE {
        if !has_begun(classes, number) {
            return false;
        }
        let member = classes.split_table().members.get(number as usize).copied();
        if member != Some((u64::from(number), number)) {
            return false;
        }
    }
    classes.split_table().rounds == SIZE - 1
}

/// Whether refinement finds a class of its own for each row.
fn is_parted_by(alloc: Global, keys: RandomState, input: &Plain<'static>) -> bool {
    let pinned = BTreeSet::new(alloc);
    match refine(alloc, keys, input, &pinned) {
        Ok(classes) => are_parted(&classes),
        Err(_) => false,
    }
}

/// Whether each round splits one row off a chain: the one next to the row of the round before.
pub(crate) fn is_parted(alloc: Global, keys: RandomState) -> bool {
    let Ok(rows) = rows(alloc) else {
        return false;
    };
    match Plain::from_rows(alloc, keys, rows) {
        Ok(input) => is_parted_by(alloc, keys, &input),
        Err(_) => false,
    }
}
