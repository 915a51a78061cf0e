//! Values of each kind, alone and within others: which of them agree, tested by maps between populations that
//! hold them.

use crate::images::{Asked, is_told};
use crate::populations::{ALONE, Around, Sketch, Sketches, Written};
use std::alloc::Global;
use std::hash::RandomState;

const IN_TYPE: Around = (&[], &[Sketch::Typed(b"HELD")]);

const IN_SEQUENCE: Around = (&[], &[Sketch::Sequence(1)]);

/// In a bag, after an unset value.
const LAST_IN_BAG: Around = (&[Sketch::Unset], &[Sketch::Bag(2)]);

/// In a bag, before an unset value.
const FIRST_IN_BAG: Around = (&[], &[Sketch::Unset, Sketch::Bag(2)]);

/// What surrounds a value in two populations.
const PLACES: &'static [(Around, Around)] = &[
    (ALONE, ALONE),
    (IN_TYPE, IN_TYPE),
    (IN_SEQUENCE, IN_SEQUENCE),
    (LAST_IN_BAG, FIRST_IN_BAG),
];

/// A value of each kind.
const KINDS: &'static [(&'static str, Sketches)] = &[
    ("an unset value alone", &[Sketch::Unset]),
    ("a derived value alone", &[Sketch::Derived]),
    ("a number alone", &[Sketch::Number(b"1.")]),
    ("a string alone", &[Sketch::Text(b"'1.'")]),
    ("a binary alone", &[Sketch::Bits(b"\"1C\"")]),
    ("an element alone", &[Sketch::Element(b"T")]),
    ("a reference alone", &[Sketch::Reference(1)]),
    (
        "a typed value alone",
        &[Sketch::Number(b"1."), Sketch::Typed(b"T")],
    ),
    (
        "a list alone",
        &[Sketch::Number(b"1."), Sketch::Sequence(1)],
    ),
    ("a bag alone", &[Sketch::Number(b"1."), Sketch::Bag(1)]),
];

/// What is tested, two values of one kind, and whether they agree.
const PAIRS: &'static [(&'static str, Sketches, Sketches, bool)] = &[
    (
        "one number",
        &[Sketch::Number(b"1.")],
        &[Sketch::Number(b"10.E-1")],
        true,
    ),
    (
        "two numbers",
        &[Sketch::Number(b"1.")],
        &[Sketch::Number(b"-1.")],
        false,
    ),
    (
        "one string",
        &[Sketch::Text(b"'\\S\\i'")],
        &[Sketch::Text(b"'\xC3\xA9'")],
        true,
    ),
    (
        "two strings",
        &[Sketch::Text(b"'\\S\\i'")],
        &[Sketch::Text(b"'\\PB\\\\S\\i'")],
        false,
    ),
    (
        "one binary",
        &[Sketch::Bits(b"\"23\"")],
        &[Sketch::Bits(b"\"27\"")],
        true,
    ),
    (
        "two binaries",
        &[Sketch::Bits(b"\"23\"")],
        &[Sketch::Bits(b"\"3F\"")],
        false,
    ),
    (
        "one element",
        &[Sketch::Element(b"STEEL")],
        &[Sketch::Element(b"Steel")],
        true,
    ),
    (
        "two elements",
        &[Sketch::Element(b"STEEL")],
        &[Sketch::Element(b"STEE")],
        false,
    ),
    (
        "one name",
        &[Sketch::Reference(2)],
        &[Sketch::Reference(2)],
        true,
    ),
    (
        "two names",
        &[Sketch::Reference(1)],
        &[Sketch::Reference(2)],
        false,
    ),
    (
        "one type",
        &[Sketch::Number(b"1."), Sketch::Typed(b"LENGTH")],
        &[Sketch::Number(b"1.0"), Sketch::Typed(b"length")],
        true,
    ),
    (
        "two types",
        &[Sketch::Number(b"1."), Sketch::Typed(b"LENGTH")],
        &[Sketch::Number(b"1."), Sketch::Typed(b"WIDTH")],
        false,
    ),
    (
        "typed values",
        &[Sketch::Number(b"1."), Sketch::Typed(b"LENGTH")],
        &[Sketch::Number(b"2."), Sketch::Typed(b"LENGTH")],
        false,
    ),
    (
        "lists",
        &[
            Sketch::Number(b"1."),
            Sketch::Number(b"2."),
            Sketch::Sequence(2),
        ],
        &[
            Sketch::Number(b"1.0"),
            Sketch::Number(b"2.0"),
            Sketch::Sequence(2),
        ],
        true,
    ),
    (
        "their order",
        &[
            Sketch::Number(b"1."),
            Sketch::Number(b"2."),
            Sketch::Sequence(2),
        ],
        &[
            Sketch::Number(b"2."),
            Sketch::Number(b"1."),
            Sketch::Sequence(2),
        ],
        false,
    ),
    (
        "their lengths",
        &[Sketch::Number(b"1."), Sketch::Sequence(1)],
        &[
            Sketch::Number(b"1."),
            Sketch::Number(b"1."),
            Sketch::Sequence(2),
        ],
        false,
    ),
    (
        "bags",
        &[
            Sketch::Number(b"1."),
            Sketch::Number(b"2."),
            Sketch::Number(b"1."),
            Sketch::Bag(3),
        ],
        &[
            Sketch::Number(b"2.0"),
            Sketch::Number(b"1."),
            Sketch::Number(b"1."),
            Sketch::Bag(3),
        ],
        true,
    ),
    (
        "how often",
        &[
            Sketch::Number(b"1."),
            Sketch::Number(b"2."),
            Sketch::Number(b"1."),
            Sketch::Bag(3),
        ],
        &[
            Sketch::Number(b"2."),
            Sketch::Number(b"1."),
            Sketch::Number(b"2."),
            Sketch::Bag(3),
        ],
        false,
    ),
    (
        "their sizes",
        &[Sketch::Number(b"1."), Sketch::Bag(1)],
        &[Sketch::Number(b"1."), Sketch::Number(b"1."), Sketch::Bag(2)],
        false,
    ),
];

/// Each row mapped to itself.
const ITSELF: &'static [(u64, u64)] = &[(1, 1), (2, 2), (3, 3), (4, 4)];

/// Whether the expected answer is returned for values in these surroundings.
fn is_told_at(
    alloc: Global,
    keys: RandomState,
    first: (Sketches, Around),
    second: (Sketches, Around),
    agree: bool,
) -> bool {
    let asked = Asked {
        from: Written::Holder(first.0, first.1),
        to: Written::Holder(second.0, second.1),
        pairs: ITSELF,
        pinned: &[],
        is_image: agree,
    };
    is_told(alloc, keys, &asked)
}

/// Whether the expected answer is returned for values in all surroundings.
fn is_told_everywhere(
    alloc: Global,
    keys: RandomState,
    first: Sketches,
    second: Sketches,
    agree: bool,
) -> bool {
    for (place, other) in PLACES {
        if !is_told_at(alloc, keys, (first, *place), (second, *other), agree) {
            return false;
        }
    }
    true
}

/// Returns what is tested by the first wrong pair, if any.
pub(crate) fn wrong_pair(alloc: Global, keys: RandomState) -> Option<&'static str> {
    for (what, first, second, agree) in PAIRS {
        if !is_told_everywhere(alloc, keys, *first, *second, *agree) {
            return Some(*what);
        }
    }
    None
}

/// Whether a value of a kind agrees with the value of this kind, and with no other.
fn is_apart(alloc: Global, keys: RandomState, kind: usize, value: Sketches) -> bool {
    for i in 0..KINDS.len() {
        if !is_told_everywhere(alloc, keys, value, KINDS[i].1, i == kind) {
            return false;
        }
    }
    true
}

/// Returns the first kind that isn't distinguished from the others, if any.
pub(crate) fn wrong_kind(alloc: Global, keys: RandomState) -> Option<&'static str> {
    for i in 0..KINDS.len() {
        let (what, value) = KINDS[i];
        if !is_apart(alloc, keys, i, value) {
            return Some(what);
        }
    }
    None
}
