//! Rings of many rows, each referring to the next, and the shorter rings onto which they are mapped.

use crate::images::{Asked, is_told};
use crate::populations::{Written, next};
use std::alloc::Global;
use std::hash::RandomState;

const ROWS: u64 = 2000;

/// What is tested, the length of another ring, the pinned rows, and whether that ring is an image
/// if the rows are mapped onto it in turn. Its length has to divide the number of rows.
type Case = (&'static str, u64, &'static [u64], bool);

const CASES: &'static [Case] = &[
    ("a ring of one", 1, &[], true),
    ("a pinned name that none has", 1, &[2001], true),
    ("half the length", 1000, &[], true),
    ("a length that doesn't divide it", 3, &[], false),
    ("the same length", 2000, &[1, 2, 2000], true),
    ("two led to where one is pinned", 1000, &[7], false),
    ("all led to where one is pinned", 1, &[2000], false),
];

/// Adds each name of the long ring, with the name in a ring of this length onto which it is mapped.
fn add_turns(pairs: &mut Vec<(u64, u64)>, length: u64) -> bool {
    let mut other = length;
    for name in 1..=ROWS {
        other = next(other, length);
        if pairs.push((name, other)).is_err() {
            return false;
        }
    }
    true
}

/// Whether the expected answer is returned for these pairs.
fn is_told_by(alloc: Global, keys: RandomState, case: &Case, pairs: &[(u64, u64)]) -> bool {
    let (_, length, pinned, is_image) = *case;
    let asked = Asked {
        from: Written::Ring(ROWS),
        to: Written::Ring(length),
        pairs,
        pinned,
        is_image,
    };
    is_told(alloc, keys, &asked)
}

fn is_right(alloc: Global, keys: RandomState, case: &Case) -> bool {
    let mut pairs = Vec::new(alloc);
    add_turns(&mut pairs, case.1) && is_told_by(alloc, keys, case, &pairs)
}

/// Returns what is tested by the first wrong case, if any.
pub(crate) fn wrong_case(alloc: Global, keys: RandomState) -> Option<&'static str> {
    for case in CASES {
        if !is_right(alloc, keys, case) {
            return Some(case.0);
        }
    }
    None
}
