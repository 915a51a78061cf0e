//! Building the form of an instance from the entities that its records name.

ghost use Rattle.std.specs.Prelude.{◌≡◌, ℕ, ◌∷◌, [], List, length, map, IfOk};
ghost use Rattle.std.specs.List.Sorted.{IsNonDecreasing};
ghost use Rattle.graphs.specs.Graphs.{graph_of, next};
ghost use Rattle.step_structures.specs.Trees.{Record, internal, external};
ghost use Rattle.conformance.specs.Entities.{Entities, AreEntities};
ghost use Rattle.schema_names.specs.Schemas.{the_schema};
ghost use Rattle.population_forms.specs.steps.Knowing.{AreKnown};
ghost use Rattle.population_forms.specs.steps.Forms.{IsFormOf, NameEntities};
ghost use Rattle.population_forms.specs.steps.Marked.{is_above};
ghost use Rattle.population_forms.specs.steps.Making.{IsForm};

use crate::counts::{abstract_leaves, numbers_outside, rows_with_two};
use crate::knowledge::Knowledge;
pub use crate::operands::one_ofs;
use crate::slots::slots;
use crate::sorted_rows::{all_above, joined_rows, kinds, row_at, sorted_copy};
use population_rows::form::Form;
use std::alloc::{AllocError, Global};
use std::slice;

/// Builds the form of instances of `types`. Their records need `counts` parameters each, which are
/// the values of the explicit attributes numbered `places`. The proper supertypes of `some` are
/// those of all `types`, so it is enough to look up these.
fn form(
    alloc: Global,
    known: &Knowledge<'_, '_, '_>,
    types: Vec<u32>,
    some: &[u32],
    counts: Vec<usize>,
    places: &[u32],
) -> Result<Form, AllocError>
    requires rise { IsNonDecreasing types.items }
    requires some { (j : ℕ) → is_above (graph_of known.now.above.now) some.now j
        ≡ is_above (graph_of known.now.above.now) types.items j }
    ensures { IfOk result (IsForm known.now types.items counts.items places.now) }
{
    let supertypes = all_above(alloc, known.above, some)?;
    let slots = slots(alloc, known.uses, &types, places)?;
    Ok(Form {
        abstract_leaves: abstract_leaves(known.names, &types, &supertypes),
        missing_supertypes: numbers_outside(&types, &supertypes),
        broken_one_ofs: rows_with_two(&types, known.one_ofs),
        types,
        counts,
        slots,
    })
}

/// Builds the form of instances that are mapped internally, by one record of `entity`
/// (ISO 10303-21, 11.2.5.1).
pub fn internal_form(
    alloc: Global,
    known: &Knowledge<'_, '_, '_>,
    entity: u32,
) -> Result<Form, AllocError>
    requires known { AreKnown known.now }
    ensures { IfOk result (λ f. (en : Entities) → AreEntities (the_schema known.now.names.now) en
        → (r : Record) → NameEntities (the_schema known.now.names.now) (r ∷ []) (entity ∷ [])
        → IsFormOf (the_schema known.now.names.now) en (internal r) f) }
{
    let types = kinds(alloc, known.above, entity)?;
    let places = row_at(known.places, entity);
    let counts = vec![in alloc; places.len()]?;
    form(
        alloc,
        known,
        types,
        slice::from_ref(&entity),
        counts,
        places,
    )
}

/// Returns how many explicit attributes each of `entities` declares itself.
fn own_counts(
    alloc: Global,
    known: &Knowledge<'_, '_, '_>,
    entities: &[u32],
) -> Result<Vec<usize>, AllocError>
    ensures { IfOk result (λ counts. counts.items
        ≡ map (λ i. length (next (graph_of known.now.own.now) i)) entities.now) }
{
    let mut counts = Vec::new(alloc);
    for entity in entities {
        counts.push(row_at(known.own, *entity).len())?;
    }
    Ok(counts)
}

/// Builds the form of instances that are mapped externally, by one record for each of `entities`
/// (ISO 10303-21, 11.2.5.3).
pub fn external_form(
    alloc: Global,
    known: &Knowledge<'_, '_, '_>,
    entities: &[u32],
) -> Result<Form, AllocError>
    requires known { AreKnown known.now }
    ensures { IfOk result (λ f. (en : Entities) → AreEntities (the_schema known.now.names.now) en
        → (rs : List Record) → NameEntities (the_schema known.now.names.now) rs entities.now
        → IsFormOf (the_schema known.now.names.now) en (external rs) f) }
{
    let types = sorted_copy(alloc, entities)?;
    let counts = own_counts(alloc, known, entities)?;
    let places = joined_rows(alloc, known.own, entities)?;
    form(alloc, known, types, entities, counts, &places)
}

/// A lemma: functions exist that give the entities of the schema their meaning.
pub fn entities_are_said(known: &Knowledge<'_, '_, '_>)
    requires known { AreKnown known.now }
    ensures { (en : Entities) × AreEntities (the_schema known.now.names.now) en }
{}
