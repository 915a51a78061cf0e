//! The input of refinement, apart from the kinds of rows.

ghost use Rattle.std.specs.Prelude.{IfOk};
ghost use Rattle.value_equality.specs.Maps.{is_pinned};
ghost use Rattle.row_signatures.specs.steps.Signatures.{AreReferences, AreSignatures, none_pinned};

use crate::references::references;
use crate::shapes::shapes;
use partition_edges::edges::Edges;
use std::alloc::{AllocError, Global};
use std::collections::BTreeSet;
use std::hash::RandomState;
use value_equality::plain::Plain;

/// The input of refinement for the rows of a population, apart from their kinds, with some of them
/// pinned. It stays valid if more of them are pinned.
#[derive(Drop)]
pub struct Signatures {
    /// By position, a number for the shape of each row's values. Rows with equal numbers agree
    /// apart from the targets of references outside SETs and BAGs of more than one value. Free rows
    /// that agree so have equal numbers.
    pub shapes: Vec<u32>,
    /// The references outside SETs and BAGs of more than one value, indexed by the position that is
    /// referred to.
    pub edges: Edges,
}

/// Returns the shapes and references of the rows of a population, with these names pinned. The
/// values of pinned rows aren't read for shapes, since their kinds already distinguish these rows
/// from all others.
///
/// The running time is proportional to the size of all values, unless some bag is large, since its
/// members are sorted, and to the number of references and its logarithm. Shapes are hashed by
/// `keys`.
pub fn signatures_of<'a>(
    alloc: Global,
    keys: RandomState,
    input: &Plain<'a>,
    pinned: &BTreeSet<u64>,
) -> Result<Signatures, AllocError>
    ensures { IfOk result (λ s. AreSignatures input.now (is_pinned pinned.now) s) }
{
    let shapes = shapes(alloc, keys, input, pinned)?;
    let edges = indexed(alloc, input)?;
    Ok(Signatures { shapes, edges })
}

/// Returns the shapes and references of the rows of a population, with nothing pinned. Shapes are
/// hashed by `keys`.
pub fn all_signatures<'a>(
    alloc: Global,
    keys: RandomState,
    input: &Plain<'a>,
) -> Result<Signatures, AllocError>
    ensures { IfOk result (λ s. AreSignatures input.now none_pinned s) }
{
    let none = BTreeSet::new(alloc);
    signatures_of(alloc, keys, input, &none)
}

/// Returns the references of rows, indexed by the position that is referred to.
fn indexed<'a>(alloc: Global, input: &Plain<'a>) -> Result<Edges, AllocError>
    ensures { IfOk result (λ edges. AreReferences input.now edges) }
{
    let size = input.len() as u32;
    let edges = references(alloc, input)?;
    Edges::of(alloc, size, edges)
}
