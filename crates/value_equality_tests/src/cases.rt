//! The cases of all tables.

use crate::{images, labels, populations, rings, signatures, table_checks, tables, values};
use std::alloc::Global;
use std::hash::RandomState;
use std::test::Fail;

/// Returns what is tested by the first wrong case of a table, if any.
fn wrong_case(alloc: Global, keys: RandomState) -> Option<&'static str> {
    populations::wrong_case(alloc, keys)
        .or(images::wrong_case(alloc, keys))
        .or(rings::wrong_case(alloc, keys))
        .or(values::wrong_pair(alloc, keys))
        .or(values::wrong_kind(alloc, keys))
        .or(labels::wrong_case(alloc, keys))
        .or(tables::wrong_class(alloc))
        .or(table_checks::wrong_case(alloc, keys))
        .or(table_checks::wrong_ancestor(alloc))
        .or(signatures::wrong_case(alloc, keys))
}

#[test]
fn cases_are_answered(rt: HostRuntime) -> Result<(), Fail> {
    let keys = RandomState::new(&rt)?;
    assert_eq!(rt; wrong_case(rt.alloc(), keys), None);
    Ok(())
}
