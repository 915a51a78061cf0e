//! The references to some classes, as keys of the places that refer to them.

ghost use Rattle.std.specs.Prelude.{◌≡◌, ◌<◌, ◌≤◌, true, IfOk, OnOk};
ghost use Rattle.std.specs.List.{Contains};
ghost use Rattle.partitions.specs.Layouts.{IsLaid, size, count};
ghost use Rattle.partitions.specs.Views.{layout};
ghost use Rattle.partition_edges.specs.Edges.{AreEdges};
ghost use Rattle.partition_edges.specs.steps.Steps.{Adds, AreFrom, Gathers, IsAlone, IsInto};

use crate::edges::{Edge, Edges};
use partitions::pairs::Pair;
use partitions::parts::Parts;
use std::alloc::{AllocError, Global};

/// Whether no other place is in the class of `place`.
pub fn is_alone(parts: &Parts, place: u32) -> bool
    requires laid { IsLaid (layout parts.now) }
    requires there { place < size (layout parts.now) }
    ensures { result ≡ true → IsAlone (layout parts.now) place }
{
    parts.members(parts.class(place)).len() == 1
}

/// Adds the pair of a reference to a place of class `class`, unless the referring place is alone in
/// its class: such a class can't be split.
fn push_edge(
    pairs: &mut Vec<Pair>,
    groups: &Parts,
    class: u32,
    edge: Edge,
) -> Result<(), AllocError>
    requires laid { IsLaid (layout groups.now) }
    requires there { edge.source < size (layout groups.now) }
    ensures { OnOk result (Adds (layout groups.now) class
        (λ e. e ≡ edge) pairs.old.items pairs.new.items) }
{
    if is_alone(groups, edge.source) {
        return Ok(());
    }
    pairs.push(Pair {
        position: edge.position,
        class,
        place: edge.source,
    })?;
    Ok(())
}

/// Adds the pairs of references to one place of class `class`.
fn push_edges(
    pairs: &mut Vec<Pair>,
    groups: &Parts,
    class: u32,
    edges: &[Edge],
) -> Result<(), AllocError>
    requires laid { IsLaid (layout groups.now) }
    requires there { AreFrom (size (layout groups.now)) edges.now }
    ensures { OnOk result (Adds (layout groups.now) class
        (Contains edges.now) pairs.old.items pairs.new.items) }
{
    for edge in edges {
        push_edge(pairs, groups, class, *edge)?;
    }
    Ok(())
}

/// Adds the pairs of all references to the places of class `class`.
fn push_members(
    pairs: &mut Vec<Pair>,
    groups: &Parts,
    edges: &Edges,
    class: u32,
    members: &[u32],
) -> Result<(), AllocError>
    requires laid { IsLaid (layout groups.now) }
    requires there { AreFrom (size (layout groups.now)) edges.now }
    ensures { OnOk result
        (Adds (layout groups.now) class (IsInto edges.now members.now) pairs.old.items
        pairs.new.items) }
{
    for place in members {
        push_edges(pairs, groups, class, edges.find(*place))?;
    }
    Ok(())
}

/// Returns the pairs of all references to the classes of `parts` with numbers from `low` up to, but
/// not including, `high`. The pairs are keys of the referring places, and `groups` is the partition
/// that they will split. A place that is alone in its class of `groups` may get no pairs, since
/// that class can't be split.
///
/// It takes time by the number of these classes, their places and the references to them.
pub fn gather(
    alloc: Global,
    parts: &Parts,
    groups: &Parts,
    edges: &Edges,
    low: u32,
    high: u32,
) -> Result<Vec<Pair>, AllocError>
    requires laid { IsLaid (layout parts.now) }
    requires grouped { IsLaid (layout groups.now) }
    requires places { size (layout groups.now) ≡ size (layout parts.now) }
    requires known { high ≤ count (layout parts.now) }
    requires edges { AreEdges (size (layout parts.now)) edges.now }
    requires order { low ≤ high }
    ensures { IfOk result (λ ps. Gathers edges.now (layout parts.now)
        (layout groups.now) low high ps.items) }
{
    let mut pairs = Vec::new(alloc);
    for class in low..high {
        push_members(&mut pairs, groups, edges, class, parts.members(class))?;
    }
    Ok(pairs)
}
