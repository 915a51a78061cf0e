//! Small populations, with their classes worked out by hand.

use crate::refinements::{Found, find};
use partition_edges::edges::Edge;
use partition_refinement::numbering::Origin;
use std::alloc::Global;

/// Places by kind and shape, with their references.
struct Places {
    kinds: &'static [u32],
    shapes: &'static [u32],
    edges: &'static [Edge],
}

/// The classes into which places split.
struct Classes {
    counts: &'static [u32],
    firsts: &'static [u32],
    origins: &'static [Origin],
    members: &'static [u32],
}

const NO_EDGES: &'static [Edge] = &[];

/// Two points and a placement at each.
const PLACED: &'static [Edge] = &[
    Edge {
        position: 0,
        source: 2,
        target: 0,
    },
    Edge {
        position: 0,
        source: 3,
        target: 1,
    },
];

/// Two places that refer to each other, and two that refer to these, in turn.
const CROSSED: &'static [Edge] = &[
    Edge {
        position: 7,
        source: 0,
        target: 1,
    },
    Edge {
        position: 7,
        source: 1,
        target: 0,
    },
    Edge {
        position: 0,
        source: 2,
        target: 0,
    },
    Edge {
        position: 18446744073709551615,
        source: 2,
        target: 3,
    },
    Edge {
        position: 0,
        source: 3,
        target: 1,
    },
    Edge {
        position: 1,
        source: 3,
        target: 2,
    },
];

/// What is tested, the places and their classes.
const TABLES: &'static [(&'static str, Places, Classes)] = &[
    (
        "no places",
        Places {
            kinds: &[],
            shapes: &[],
            edges: NO_EDGES,
        },
        Classes {
            counts: &[0],
            firsts: &[],
            origins: &[],
            members: &[],
        },
    ),
    (
        "kinds alone, which stand in another order than their numbers",
        Places {
            kinds: &[9, 4, 9, 4294967295, 0],
            shapes: &[0, 0, 0, 0, 0],
            edges: NO_EDGES,
        },
        Classes {
            counts: &[4],
            firsts: &[0, 1, 3, 4],
            origins: &[Origin::Start, Origin::Start, Origin::Start, Origin::Start],
            members: &[0, 1, 0, 2, 3],
        },
    ),
    (
        "points of two values, and their placements",
        Places {
            kinds: &[0, 0, 1, 1],
            shapes: &[0, 1, 2, 2],
            edges: PLACED,
        },
        Classes {
            counts: &[2, 3, 4],
            firsts: &[0, 2, 1, 3],
            origins: &[
                Origin::Start,
                Origin::Start,
                Origin::Split {
                    parent: 0,
                    round: 1,
                },
                Origin::Split {
                    parent: 1,
                    round: 2,
                },
            ],
            members: &[0, 2, 1, 3],
        },
    ),
    (
        "points of one value, and their placements",
        Places {
            kinds: &[0, 0, 1, 1],
            shapes: &[0, 0, 1, 1],
            edges: PLACED,
        },
        Classes {
            counts: &[2],
            firsts: &[0, 2],
            origins: &[Origin::Start, Origin::Start],
            members: &[0, 0, 1, 1],
        },
    ),
    (
        "a ring of two, and two that refer to each other at other positions",
        Places {
            kinds: &[0, 0, 0, 0],
            shapes: &[0, 0, 1, 2],
            edges: CROSSED,
        },
        Classes {
            counts: &[1, 3],
            firsts: &[0, 2, 3],
            origins: &[
                Origin::Start,
                Origin::Split {
                    parent: 0,
                    round: 1,
                },
                Origin::Split {
                    parent: 0,
                    round: 1,
                },
            ],
            members: &[0, 0, 1, 2],
        },
    ),
];

/// Whether these classes were found.
fn is_right(found: &Found, wanted: &Classes) -> bool {
    found.counts.as_slice() == wanted.counts
        && found.numbering.firsts.as_slice() == wanted.firsts
        && found.numbering.origins.as_slice() == wanted.origins
        && found.numbering.members.as_slice() == wanted.members
}

/// Whether places split into these classes.
fn is_found(alloc: Global, places: &Places, wanted: &Classes) -> bool {
    match find(alloc, places.kinds, places.shapes, places.edges) {
        Some(found) => is_right(&found, wanted),
        None => false,
    }
}

/// Returns what is tested by the first table with other classes, if any.
pub(crate) fn wrong_table(alloc: Global) -> Option<&'static str> {
    for (what, places, classes) in TABLES {
        if !is_found(alloc, places, classes) {
            return Some(*what);
        }
    }
    None
}
