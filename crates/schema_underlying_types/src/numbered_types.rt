//! The base of each data type of a schema, by number, in the order of the text.

ghost use Rattle.std.specs.Prelude.{◌≡◌, ◌∷◌, [], map, flat_map, IfOk, OnOk};
ghost use Rattle.express_syntax.specs.Views.{
  bounds_of,
  data_type_of,
  explicit_of,
  derived_of,
  inverse_of,
  entity_of,
  underlying_of,
  declaration_of,
  if_some,
};
ghost use Rattle.express_syntax.specs.Schemas.{named, bag, set};
ghost use Rattle.express_syntax.specs.ExpressionViews.{capitals};
ghost use Rattle.schema_semantics.specs.Attributes.{collected};
ghost use Rattle.schema_names.specs.Schemas.{the_schema};
ghost use Rattle.schema_data_types.specs.NumberedTypes.{
  within,
  whole_underlying,
  explicit_types,
  derived_types,
  inverse_types,
  attribute_types,
  whole_types,
  all_data_types,
};
ghost use Rattle.schema_underlying_types.specs.BaseEntries.{is_known as is_known_in, bases_from, GoesOn};

use crate::base::{Base, Collection as Kind};
use crate::base_entries::{base_of, bounded, entry_of, if_known, is_known, number_behind};
use express_syntax::tree::{
    Bounds, Collection, DataType, Declaration, Derived, Entity, Explicit, Inverse, Underlying,
};
use schema_names::names::Names;
use std::alloc::{AllocError, Global};
use step_literals::literal::Word;

/// Adds the base of `data_type`, then those of its elements.
fn add_within<'a>(
    names: &Names<'a, '_>,
    declared: &[Base],
    bases: &mut Vec<Base>,
    is_known: bool,
    data_type: &DataType<'a>,
) -> Result<(), AllocError>
    requires { is_known ≡ is_known_in (the_schema names.now) (data_type_of data_type.now) }
    ensures { OnOk result (GoesOn (the_schema names.now) declared.now bases.old.items
        (within (data_type_of data_type.now)) bases.new.items) }
{
    let element = number_behind(bases.len())?;
    bases.push(base_of(names, declared, is_known, element, data_type))?;
    match data_type {
        DataType::Array { element, .. } => add_within(names, declared, bases, is_known, element),
        DataType::List { element, .. } => add_within(names, declared, bases, is_known, element),
        DataType::Bag { element, .. } => add_within(names, declared, bases, is_known, element),
        DataType::Set { element, .. } => add_within(names, declared, bases, is_known, element),
        _ => Ok(()),
    }
}

/// Adds the bases of `data_type` and of its elements.
fn add_data_type<'a>(
    names: &Names<'a, '_>,
    declared: &[Base],
    bases: &mut Vec<Base>,
    data_type: &DataType<'a>,
) -> Result<(), AllocError>
    ensures { OnOk result (GoesOn (the_schema names.now) declared.now bases.old.items
        (within (data_type_of data_type.now)) bases.new.items) }
{
    let is_known = is_known(names, data_type);
    add_within(names, declared, bases, is_known, data_type)
}

/// Adds the bases of the data types of an entity's explicit attributes.
fn add_explicits<'a>(
    names: &Names<'a, '_>,
    declared: &[Base],
    bases: &mut Vec<Base>,
    explicits: &[Explicit<'a>],
) -> Result<(), AllocError>
    ensures { OnOk result (GoesOn (the_schema names.now) declared.now bases.old.items
        (flat_map within (explicit_types (map explicit_of explicits.now))) bases.new.items) }
{
    for explicit in explicits {
        add_data_type(names, declared, bases, &explicit.data_type)?;
    }
    Ok(())
}

/// Adds the bases of the data types of an entity's derived attributes.
fn add_deriveds<'a>(
    names: &Names<'a, '_>,
    declared: &[Base],
    bases: &mut Vec<Base>,
    deriveds: &[Derived<'a>],
) -> Result<(), AllocError>
    ensures { OnOk result (GoesOn (the_schema names.now) declared.now bases.old.items
        (flat_map within (derived_types (map derived_of deriveds.now))) bases.new.items) }
{
    for derived in deriveds {
        add_data_type(names, declared, bases, &derived.data_type)?;
    }
    Ok(())
}

/// Adds the base of a name.
fn add_named(
    names: &Names<'_, '_>,
    declared: &[Base],
    bases: &mut Vec<Base>,
    name: Word<'_>,
) -> Result<(), AllocError>
    ensures { OnOk result (GoesOn (the_schema names.now) declared.now bases.old.items
        (named (capitals name.entry) ∷ []) bases.new.items) }
{
    bases.push(entry_of(declared, names.find(name)))?;
    Ok(())
}

/// Adds a SET of a name, then the base of the name.
fn add_set(
    names: &Names<'_, '_>,
    declared: &[Base],
    bases: &mut Vec<Base>,
    bounds: &Option<Bounds<'_>>,
    name: Word<'_>,
) -> Result<(), AllocError>
    ensures { OnOk result (GoesOn (the_schema names.now) declared.now bases.old.items
        (within (set (if_some bounds_of bounds.now) (named (capitals name.entry))))
        bases.new.items) }
{
    let element = number_behind(bases.len())?;
    let aggregate = bounded(Kind::Set, bounds, true, element);
    bases.push(if_known(names.find(name).is_some(), aggregate))?;
    add_named(names, declared, bases, name)
}

/// Adds a BAG of a name, then the base of the name.
fn add_bag(
    names: &Names<'_, '_>,
    declared: &[Base],
    bases: &mut Vec<Base>,
    bounds: &Option<Bounds<'_>>,
    name: Word<'_>,
) -> Result<(), AllocError>
    ensures { OnOk result (GoesOn (the_schema names.now) declared.now bases.old.items
        (within (bag (if_some bounds_of bounds.now) (named (capitals name.entry))))
        bases.new.items) }
{
    let element = number_behind(bases.len())?;
    let aggregate = bounded(Kind::Bag, bounds, false, element);
    bases.push(if_known(names.find(name).is_some(), aggregate))?;
    add_named(names, declared, bases, name)
}

/// Adds the bases of the data type of an inverse attribute (ISO 10303-11, 9.2.1.3).
fn add_inverse<'a>(
    names: &Names<'a, '_>,
    declared: &[Base],
    bases: &mut Vec<Base>,
    inverse: &Inverse<'a>,
) -> Result<(), AllocError>
    ensures { OnOk result (GoesOn (the_schema names.now) declared.now bases.old.items
        (within (collected (inverse_of inverse.now).collection (inverse_of inverse.now).entity))
        bases.new.items) }
{
    match &inverse.collection {
        Collection::One => add_named(names, declared, bases, inverse.entity),
        Collection::Set(bounds) => add_set(names, declared, bases, bounds, inverse.entity),
        Collection::Bag(bounds) => add_bag(names, declared, bases, bounds, inverse.entity),
    }
}

/// Adds the bases of the data types of an entity's inverse attributes.
fn add_inverses<'a>(
    names: &Names<'a, '_>,
    declared: &[Base],
    bases: &mut Vec<Base>,
    inverses: &[Inverse<'a>],
) -> Result<(), AllocError>
    ensures { OnOk result (GoesOn (the_schema names.now) declared.now bases.old.items
        (flat_map within (inverse_types (map inverse_of inverses.now))) bases.new.items) }
{
    for inverse in inverses {
        add_inverse(names, declared, bases, inverse)?;
    }
    Ok(())
}

/// Adds the bases of the underlying data type of a defined type, unless it is an enumeration or a
/// SELECT.
fn add_underlying<'a>(
    names: &Names<'a, '_>,
    declared: &[Base],
    bases: &mut Vec<Base>,
    underlying: &Underlying<'a>,
) -> Result<(), AllocError>
    ensures { OnOk result (GoesOn (the_schema names.now) declared.now bases.old.items
        (flat_map within (whole_underlying (underlying_of underlying.now))) bases.new.items) }
{
    match underlying {
        Underlying::DataType(data_type) => add_data_type(names, declared, bases, data_type),
        Underlying::Enumeration(_) | Underlying::Select(_) => Ok(()),
    }
}

/// Adds the bases of the data types of an entity.
fn add_entity<'a>(
    names: &Names<'a, '_>,
    declared: &[Base],
    bases: &mut Vec<Base>,
    entity: &Entity<'a>,
) -> Result<(), AllocError>
    ensures { OnOk result (GoesOn (the_schema names.now) declared.now bases.old.items
        (flat_map within (attribute_types (entity_of entity.now))) bases.new.items) }
{
    add_explicits(names, declared, bases, &entity.explicits)?;
    add_deriveds(names, declared, bases, entity.derived_attributes())?;
    add_inverses(names, declared, bases, entity.inverse_attributes())
}

/// Adds the bases of the data types of a declaration.
fn add_declaration<'a>(
    names: &Names<'a, '_>,
    declared: &[Base],
    bases: &mut Vec<Base>,
    declaration: &Declaration<'a>,
) -> Result<(), AllocError>
    ensures { OnOk result (GoesOn (the_schema names.now) declared.now bases.old.items
        (flat_map within (whole_types (declaration_of declaration.now))) bases.new.items) }
{
    match declaration {
        Declaration::Type(defined) => {
            add_underlying(names, declared, bases, &defined.underlying)
        }
        Declaration::Entity(entity) => add_entity(names, declared, bases, entity),
        Declaration::Skipped(_) => Ok(()),
    }
}

/// Returns the base of each data type of a schema, by number, from the bases of its declarations.
pub(crate) fn numbered_bases(
    alloc: Global,
    names: &Names<'_, '_>,
    declared: &[Base],
) -> Result<Vec<Base>, AllocError>
    ensures { IfOk result (λ t. t.items ≡ bases_from (the_schema names.now) declared.now 0
        (all_data_types (the_schema names.now))) }
{
    let mut bases = Vec::new(alloc);
    for declaration in names.declarations() {
        add_declaration(names, declared, &mut bases, declaration)?;
    }
    Ok(bases)
}
