//! The kinds of rows, their shapes, and their references outside bags.

use crate::populations::{Row, Rows, Sketch, Words, Written, population};
use crate::table_checks::names_of;
use partition_edges::edges::Edge;
use row_signatures::kinds::kinds;
use row_signatures::references::references;
use row_signatures::shapes::shapes;
use std::alloc::Global;
use std::collections::BTreeSet;
use std::hash::RandomState;
use value_equality::plain::Plain;

/// What is tested, a population, its pinned names, the numbers of its kinds and of its shapes, and
/// its references.
type Case = (
    &'static str,
    Rows,
    &'static [u64],
    &'static [u32],
    &'static [u32],
    &'static [Edge],
);

const POINT: Words = &[b"POINT"];

const PLACEMENT: Words = &[b"PLACEMENT"];

const ONE: Row<'static> = (1, 0, POINT, &[Sketch::Number(b"1.")]);

const TWO: Row<'static> = (2, 0, POINT, &[Sketch::Number(b"2.")]);

const ELSEWHERE: Row<'static> = (2, 1, POINT, &[Sketch::Number(b"1.")]);

const AT_2: Row<'static> = (3, 0, PLACEMENT, &[Sketch::Reference(2)]);

/// A placement with two points in a bag, and a list of a point and a placement.
const AT_BOTH: Row<'static> = (
    4,
    0,
    PLACEMENT,
    &[
        Sketch::Reference(1),
        Sketch::Reference(2),
        Sketch::Bag(2),
        Sketch::Reference(1),
        Sketch::Reference(3),
        Sketch::Sequence(2),
    ],
);

const PLACED: Rows = &[ONE, TWO, AT_2, AT_BOTH];

const IN_TWO_SECTIONS: Rows = &[ONE, ELSEWHERE];

/// The value of `ONE` in another spelling and under another type; references to both, and to each
/// in a bag of one.
const OTHERWISE: Rows = &[
    ONE,
    (2, 0, PLACEMENT, &[Sketch::Number(b"1.0")]),
    (3, 0, PLACEMENT, &[Sketch::Reference(1)]),
    (4, 0, POINT, &[Sketch::Reference(2)]),
    (5, 0, POINT, &[Sketch::Reference(1), Sketch::Bag(1)]),
    (6, 0, POINT, &[Sketch::Reference(2), Sketch::Bag(1)]),
];

const TO_BOTH: &'static [Edge] = &[
    Edge {
        position: 0,
        source: 2,
        target: 0,
    },
    Edge {
        position: 0,
        source: 3,
        target: 1,
    },
    Edge {
        position: 0,
        source: 4,
        target: 0,
    },
    Edge {
        position: 0,
        source: 5,
        target: 1,
    },
];

const LINKED: &'static [Edge] = &[
    Edge {
        position: 0,
        source: 2,
        target: 1,
    },
    Edge {
        position: 0,
        source: 3,
        target: 0,
    },
    Edge {
        position: 1,
        source: 3,
        target: 2,
    },
];

const CASES: &'static [Case] = &[
    (
        "kinds and references",
        PLACED,
        &[],
        &[0, 0, 2, 2],
        &[0, 1, 2, 3],
        LINKED,
    ),
    (
        "a pinned row is alone",
        PLACED,
        &[1],
        &[0, 1, 2, 2],
        &[0, 1, 2, 3],
        LINKED,
    ),
    (
        "sections are kinds, and not shapes",
        IN_TWO_SECTIONS,
        &[],
        &[0, 1],
        &[0, 0],
        &[],
    ),
    (
        "types and names outside bags are no part of shapes",
        OTHERWISE,
        &[],
        &[0, 1, 1, 0, 0, 0],
        &[0, 0, 2, 2, 4, 4],
        TO_BOTH,
    ),
    (
        "no row has the shape of a pinned one",
        OTHERWISE,
        &[1, 4],
        &[0, 1, 1, 3, 4, 4],
        &[0, 1, 2, 3, 4, 4],
        TO_BOTH,
    ),
];

/// Whether the kinds of a population have these numbers.
fn has_kinds(
    alloc: Global,
    keys: RandomState,
    input: &Plain<'static>,
    pinned: &BTreeSet<u64>,
    numbers: &[u32],
) -> bool {
    match kinds(alloc, keys, input, pinned) {
        Ok(found) => found.as_slice() == numbers,
        Err(_) => false,
    }
}

/// Whether the shapes of a population have these numbers.
fn has_shapes(
    alloc: Global,
    keys: RandomState,
    input: &Plain<'static>,
    pinned: &BTreeSet<u64>,
    numbers: &[u32],
) -> bool {
    match shapes(alloc, keys, input, pinned) {
        Ok(found) => found.as_slice() == numbers,
        Err(_) => false,
    }
}

/// Whether a population has these references.
fn has_references(alloc: Global, input: &Plain<'static>, edges: &[Edge]) -> bool {
    match references(alloc, input) {
        Ok(found) => found.as_slice() == edges,
        Err(_) => false,
    }
}

fn is_found(alloc: Global, keys: RandomState, case: &Case, input: &Plain<'static>) -> bool {
    match names_of(alloc, case.2) {
        Some(pinned) => {
            has_kinds(alloc, keys, input, &pinned, case.3)
                && has_shapes(alloc, keys, input, &pinned, case.4)
                && has_references(alloc, input, case.5)
        }
        None => false,
    }
}

fn is_right(alloc: Global, keys: RandomState, case: &Case) -> bool {
    match population(alloc, keys, Written::Rows(case.1)) {
        Ok(input) => is_found(alloc, keys, case, &input),
        Err(_) => false,
    }
}

/// Returns what is tested by the first wrong case, if any.
pub(crate) fn wrong_case(alloc: Global, keys: RandomState) -> Option<&'static str> {
    for case in CASES {
        if !is_right(alloc, keys, case) {
            return Some(case.0);
        }
    }
    None
}
