//! The attribute to which `\entity.attribute` refers (ISO 10303-11, 12.7.4).

ghost use Rattle.std.specs.Prelude.{◌≡◌, bytes_eq};
ghost use Rattle.graphs.specs.Graphs.{has};
ghost use Rattle.express_syntax.specs.ExpressionViews.{capitals};
ghost use Rattle.schema_types.specs.TypeTables.{IsMade};
ghost use Rattle.schema_names.specs.Numbers.{HasNumber};
ghost use Rattle.schema_names.specs.Schemas.{the_schema};
ghost use Rattle.schema_semantics.specs.Names.{Name, Declares};
ghost use Rattle.schema_attribute_sources.specs.SourceViews.{AreTypes};
ghost use Rattle.schema_underlying_types.specs.BaseViews.{name_at};
ghost use Rattle.schema_attribute_sources.specs.steps.Grouping.{IsInherited, IsMember, first_named};

use crate::declaring_entity::{Declarer, declaring};
use crate::derivations::row_of;
use schema_explicit_attributes::own_attributes::{Meant, declares_at};
use schema_names::names::Names;
use schema_types::types::ResolvedTypes;
use step_literals::literal::Word;

/// Whether the declaration `number` has this name.
fn has_name(names: &Names<'_, '_>, number: u32, name: Word<'_>) -> bool
    requires { HasNumber (the_schema names.now) (name_at (the_schema names.now) number) number }
    ensures { result ≡ bytes_eq (name_at (the_schema names.now) number) (capitals name.entry) }
{
    match names.name(number) {
        Some(own) => own == name,
        None => false,
    }
}

/// Returns the first of the types that has this name, if any. Instances have few types, so
/// comparing names is cheaper than hashing this one.
fn type_named(names: &Names<'_, '_>, types: &[u32], name: Word<'_>) -> Option<u32>
    requires { AreTypes (the_schema names.now) types.now }
    ensures { result ≡ first_named (the_schema names.now) (capitals name.entry) types.now }
{
    for number in types {
        if has_name(names, *number, name) {
            return Some(*number);
        }
    }
    None
}

/// Whether `number` is among the types.
fn is_among(types: &[u32], number: u32) -> bool
    ensures { result ≡ has types.now number }
{
    types.contains(&number)
}

/// Returns the only supertype of `entity` that declares an attribute `name`, if there is only one
/// and it is among the types.
fn inherited(
    schema: &ResolvedTypes<'_, '_>,
    types: &[u32],
    entity: u32,
    name: Word<'_>,
) -> Option<u32>
    requires made { IsMade schema.now }
    requires types { AreTypes (the_schema schema.now.names) types.now }
    ensures { (e : Name) → HasNumber (the_schema schema.now.names) e entity
        → (Declares (the_schema schema.now.names) e (capitals name.entry) → ⊥)
        → IsInherited (the_schema schema.now.names) types.now e (capitals name.entry) result }
{
    let row = row_of(&schema.above, entity);
    let Declarer::One(declaring) = declaring(&schema.names, row, name) else {
        return None;
    };
    if !is_among(types, declaring) {
        return None;
    }
    Some(declaring)
}

/// Returns the type that declares the attribute to which `\entity.name` refers: the entity itself,
/// otherwise the only one from which it inherits an attribute of this name. `None` if `entity` or
/// that type isn't among the types.
pub(crate) fn group_member(
    schema: &ResolvedTypes<'_, '_>,
    types: &[u32],
    entity: Word<'_>,
    name: Word<'_>,
) -> Option<u32>
    requires made { IsMade schema.now }
    requires types { AreTypes (the_schema schema.now.names) types.now }
    ensures { IsMember (the_schema schema.now.names) types.now (capitals entity.entry)
        (capitals name.entry) result }
{
    let Some(entity) = type_named(&schema.names, types, entity) else {
        return None;
    };
    if declares_at(&schema.names, entity, Meant::All, name) {
        return Some(entity);
    }
    inherited(schema, types, entity, name)
}
