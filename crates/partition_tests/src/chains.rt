//! Places in a row that refer to each other.

ghost use Rattle.std.specs.Prelude.{◌<◌};

use crate::refinements::{Found, find};
use partition_edges::edges::Edge;
use partition_refinement::numbering::Origin;
use std::alloc::{AllocError, Global};

/// The number of places, all of one kind. Those that refer to a place have one shape, the others
/// another.
const SIZE: u32 = 400;

/// How the places refer to each other, at position 0.
#[derive(Clone, Copy)]
pub(crate) enum Chain {
    /// Each place to the one before. The first place splits off in round 1, then one per round; the
    /// rest gets the new number.
    Forward,
    /// Each place to the one after. The last place splits off in round 1, then one per round; the
    /// rest has the first place.
    Backward,
    /// Each half as a `Forward` chain.
    Twice,
}

/// Returns the place that `place` refers to, if any.
fn target(chain: Chain, place: u32) -> Option<u32> {
    let (behind, is_end) = match chain {
        Chain::Forward => (false, place == 0),
        Chain::Backward => (true, place >= SIZE - 1),
        Chain::Twice => (false, place == 0 || place == SIZE / 2),
    };
    if is_end {
        return None;
    }
    if behind {
        place.checked_add(1)
    } else {
        place.checked_sub(1)
    }
}

/// Returns all references.
fn edges(alloc: Global, chain: Chain) -> Result<Vec<Edge>, AllocError> {
    let mut edges = Vec::new(alloc);
    for source in 0..SIZE {
        if let Some(target) = target(chain, source) {
            edges.push(Edge {
                position: 0,
                source,
                target,
            })?;
        }
    }
    Ok(edges)
}

/// Returns the number of classes in the end, which is also the number of rounds.
fn class_count(chain: Chain) -> u32 {
    match chain {
        Chain::Forward | Chain::Backward => SIZE,
        Chain::Twice => SIZE / 2,
    }
}

/// Returns the number of the class of a place.
fn member(chain: Chain, place: u32) -> u32 {
    match chain {
        Chain::Forward => place,
        Chain::Backward => SIZE.saturating_sub(place) % SIZE,
        Chain::Twice => place % (SIZE / 2),
    }
}

/// Returns the first place of a class, and how the class began. Each class except 0 began in the
/// round of its number.
fn class(chain: Chain, number: u32) -> (u32, Origin) {
    let Some(before) = number.checked_sub(1) else {
        return (0, Origin::Start);
    };
    let (first, parent) = match chain {
        Chain::Forward | Chain::Twice => (number, before),
        Chain::Backward => (SIZE.saturating_sub(number), 0),
    };
    let round = number;
    (first, Origin::Split { parent, round })
}

/// Whether a class is as expected, and the round in which it began left as many classes as there
/// were then.
fn is_class(found: &Found, chain: Chain, number: u32) -> bool {
    let (first, origin) = class(chain, number);
    let at = number as usize;
    found.counts.get(at).copied() == number.checked_add(1)
        && found.numbering.firsts.get(at).copied() == Some(first)
        && found.numbering.origins.get(at).copied() == Some(origin)
}

/// Whether all classes are as expected.
fn are_classes(found: &Found, chain: Chain) -> bool {
    for number in 0..class_count(chain) {
        if !is_class(found, chain, number) {
            return false;
        }
    }
    true
}

/// Whether each place is in its class.
fn are_members(found: &Found, chain: Chain) -> bool {
    for place in 0..SIZE {
        if found.numbering.members.get(place as usize).copied() != Some(member(chain, place)) {
            return false;
        }
    }
    true
}

/// Whether each place was examined once, and each reference at most once more. A round examines the
/// references to the smaller part of each class that the round before split, and no place is in a
/// smaller part twice here.
fn is_linear(found: &Found) -> bool {
    let size = SIZE as u64;
    size <= found.signed && found.signed <= 2 * size
}

/// Whether there are as many rounds, classes and members as expected, and each is right.
fn is_right(found: &Found, chain: Chain) -> bool {
    let count = class_count(chain) as usize;
    found.counts.len() == count
        && found.numbering.firsts.len() == count
        && found.numbering.origins.len() == count
        && found.numbering.members.len() == SIZE as usize
        && is_linear(found)
        && are_classes(found, chain)
        && are_members(found, chain)
}

/// Returns the number of the shape of each place.
fn shapes(alloc: Global, chain: Chain) -> Result<Vec<u32>, AllocError> {
    let mut shapes = Vec::new(alloc);
    for place in 0..SIZE {
        shapes.push(target(chain, place).is_none() as u32)?;
    }
    Ok(shapes)
}

/// Finds the classes of a chain.
fn found(alloc: Global, chain: Chain) -> Option<Found> {
    let kinds = [0; SIZE as usize];
    let shapes = shapes(alloc, chain).ok()?;
    let edges = edges(alloc, chain).ok()?;
    find(alloc, &kinds, &shapes, &edges)
}

/// Whether the expected classes of a chain are found.
pub(crate) fn is_found(alloc: Global, chain: Chain) -> bool {
    match found(alloc, chain) {
        Some(found) => is_right(&found, chain),
        None => false,
    }
}
