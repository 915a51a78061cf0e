//! Columns, as far as memory suffices.

use crate::rows::expect_none;
use parsing::column::Column;
use std::alloc::{AllocError, Global};

const FORTY: &'static [u64] = &[
    1, 2, 3, 4, 5, 6, 7, 8, 9, 10, 11, 12, 13, 14, 15, 16, 17, 18, 19, 20, 21, 22, 23, 24, 25, 26,
    27, 28, 29, 30, 31, 32, 33, 34, 35, 36, 37, 38, 39, 40,
];

// Adds the first `length` cells, and the others as the children of a list.
fn add_forty(column: &mut Column<u64>, length: usize) -> Result<(), AllocError> {
    for i in 0..FORTY.len() {
        if i < length {
            column.push_column(FORTY[i])?;
        } else {
            column.push_pending(FORTY[i])?;
        }
    }
    Ok(())
}

// Whether a column of the first `length` cells, with the others in a list, has all of them in
// order.
fn has_forty(alloc: Global, length: usize) -> bool {
    let mut column = Column::new(alloc);
    if add_forty(&mut column, length).is_err() {
        return false;
    }
    column.close(0);
    column.into_column().as_slice() == FORTY
}

fn wrong_length(alloc: Global) -> Option<usize> {
    for length in 0..FORTY.len() + 1 {
        if !has_forty(alloc, length) {
            return Some(length);
        }
    }
    None
}

#[test]
fn memory_is_found_for_columns(rt: HostRuntime) {
    expect_none(&rt, wrong_length(rt.alloc()));
}
