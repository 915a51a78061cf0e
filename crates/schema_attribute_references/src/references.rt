//! References to attributes.

ghost use Rattle.std.specs.Prelude.{IfOk};
ghost use Rattle.express_syntax.specs.ExpressionViews.{capitals};
ghost use Rattle.schema_semantics.specs.Sets.{of_set, of_entity, WithSubtypes};
ghost use Rattle.schema_data_types.specs.steps.Values.{Holds};
ghost use Rattle.schema_attribute_references.specs.steps.Taking.{IsKnown, IsTaken, schema_in};
ghost use Rattle.schema_attribute_references.specs.steps.Entities.{OfNumbers};

use crate::choice::{is_none, is_unclear, of_entities, of_owner, owner_of};
use crate::collection::gather;
use crate::entities::{entity_numbers, with_subtypes};
use crate::schema_facts::Known;
use crate::taken_attributes::Taken;
use schema_data_types::values::Atom;
use std::alloc::{AllocError, Global};
use step_literals::literal::Word;

/// Returns the attributes `name` that `entities` declare or inherit.
fn take_of_numbers(
    alloc: Global,
    known: &Known<'_, '_, '_>,
    entities: &[u32],
    name: Word<'_>,
) -> Result<Taken, AllocError>
    requires known { IsKnown known.now }
    ensures { IfOk result (IsTaken (schema_in known.now)
        (of_set (OfNumbers (schema_in known.now) entities.now) (capitals name.entry))) }
{
    let declarations = known.attributes.find(name);
    let taken = of_entities(alloc, known.above, entities, declarations)?;
    let is_unclear = is_unclear(known.above, entities, &taken);
    gather(alloc, &known.tables, &taken, is_unclear)
}

/// Returns the attributes that `name` takes after a dot, if the value before the dot may be one of
/// `atoms`, or without a dot, if SELF may be one of them: those that an entity among `atoms` or a
/// subtype declares or inherits (ISO 10303-11, 12.7.1 and 12.7.3).
pub fn take_of_any(
    alloc: Global,
    known: &Known<'_, '_, '_>,
    atoms: &[Atom],
    name: Word<'_>,
) -> Result<Taken, AllocError>
    requires known { IsKnown known.now }
    ensures { IfOk result (IsTaken (schema_in known.now) (of_set
        (WithSubtypes (schema_in known.now) (Holds (schema_in known.now) atoms.now))
        (capitals name.entry))) }
{
    let entities = entity_numbers(alloc, atoms)?;
    let all = with_subtypes(alloc, known.below, &entities)?;
    take_of_numbers(alloc, known, &all, name)
}

/// Returns the attribute that `\entity.name` takes: the entity's own, otherwise the only one that
/// it inherits (ISO 10303-11, 12.7.4).
pub fn take_of_entity(
    alloc: Global,
    known: &Known<'_, '_, '_>,
    entity: Word<'_>,
    name: Word<'_>,
) -> Result<Taken, AllocError>
    requires known { IsKnown known.now }
    ensures { IfOk result (IsTaken (schema_in known.now)
        (of_entity (capitals entity.entry) (capitals name.entry))) }
{
    let declarations = known.attributes.find(name);
    let owner = owner_of(known.above, declarations, known.tables.names.find(entity));
    let taken = of_owner(alloc, owner, declarations)?;
    let is_unclear = is_none(&taken);
    gather(alloc, &known.tables, &taken, is_unclear)
}
