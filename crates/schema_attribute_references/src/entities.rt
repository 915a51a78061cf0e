//! The entities among atoms, by number.

ghost use Rattle.std.specs.Prelude.{◌≡◌, IfOk};
ghost use Rattle.graphs.specs.Graphs.{graph_of};
ghost use Rattle.schema_attribute_references.specs.steps.Entities.{entity_number, entity_numbers, with_subtypes};

use crate::numbers::{add_some, row_at};
use schema_data_types::values::Atom;
use std::alloc::{AllocError, Global};

/// Returns the entity of an atom, if it is an instance.
fn entity_number(atom: Atom) -> Option<u32>
    ensures { result ≡ entity_number atom }
{
    match atom {
        Atom::Instance(number) => Some(number),
        _ => None,
    }
}

/// Returns the numbers of the entities among `atoms`.
pub(crate) fn entity_numbers(alloc: Global, atoms: &[Atom]) -> Result<Vec<u32>, AllocError>
    ensures { IfOk result (λ v. v.items ≡ entity_numbers atoms.now) }
{
    let mut numbers = Vec::new(alloc);
    for atom in atoms {
        add_some(&mut numbers, entity_number(*atom))?;
    }
    Ok(numbers)
}

/// Returns the numbers of `entities`, each followed by those of its subtypes.
pub(crate) fn with_subtypes(
    alloc: Global,
    below: &[Vec<u32>],
    entities: &[u32],
) -> Result<Vec<u32>, AllocError>
    ensures { IfOk result (λ v. v.items ≡ with_subtypes (graph_of below.now) entities.now) }
{
    let mut numbers = Vec::new(alloc);
    for entity in entities {
        numbers.push(*entity)?;
        numbers.extend_from_slice(row_at(below, *entity))?;
    }
    Ok(numbers)
}
