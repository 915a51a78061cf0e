//! The attributes that redeclarations refer to, and the data types of their first declarations.

ghost use Rattle.std.specs.Prelude.{◌≡◌, ◌<◌, ◌↔◌, [], Some, length, map, drop, get_or, slice_get, IsTrue};
ghost use Rattle.std.specs.List.{list_any};
ghost use Rattle.graphs.specs.Graphs.{graph_of};
ghost use Rattle.express_syntax.specs.ExpressionViews.{capitals};
ghost use Rattle.express_syntax.specs.Schemas.{DataType as DataTypeTree};
ghost use Rattle.express_syntax.specs.Views.{
  attribute_of,
  explicit_of,
  derived_of,
  inverse_of,
  entity_of,
};
ghost use Rattle.schema_semantics.specs.Names.{Name, IsEntity};
ghost use Rattle.schema_semantics.specs.Faults.{IsResolved};
ghost use Rattle.schema_semantics.specs.Attributes.{IsOrigin, HasFirstShape};
ghost use Rattle.schema_names.specs.Numbers.{HasNumber, AreNumberRowsOf};
ghost use Rattle.schema_names.specs.Schemas.{the_schema};
ghost use Rattle.schema_explicit_attributes.specs.steps.Owned.{is_own};
ghost use Rattle.schema_data_types.specs.NumberedTypes.{whole_types, all_data_types};
ghost use Rattle.schema_data_types.specs.steps.Alike.{IsTable};
ghost use Rattle.schema_data_types.specs.ShapeTables.{AreShapes, IsKnown, DecidesAlike};
ghost use Rattle.schema_explicit_attributes.specs.SupertypeLines.{HaveLines};
ghost use Rattle.schema_explicit_attributes.specs.steps.Origins.{IsNumberOf};
ghost use Rattle.schema_attributes.specs.steps.Redeclaring.{IsFirstTypeAt, IsRedeclaredAt};
ghost use Rattle.schema_attributes.specs.steps.Searching.{
  explicit_typing,
  derived_typing,
  inverse_typing,
  typings,
  types_own,
  number_where,
};

use express_syntax::tree::{Attribute, Declaration, Derived, Entity, Explicit, Inverse};
use schema_data_types::alike_types::are_alike_types;
use schema_data_types::forms::DataTypes;
use schema_data_types::laws::data_types_are_known;
use schema_data_types::shapes::Shape;
use schema_explicit_attributes::origins::origin;
use schema_names::names::Names;
use step_literals::literal::Word;

/// Whether `attribute` has this name and isn't a redeclaration.
fn is_own(attribute: &Attribute<'_>, name: Word<'_>) -> bool
    ensures { result ≡ is_own (capitals name.entry) (attribute_of attribute.now) }
{
    match attribute {
        Attribute::Unqualified(own) => *own == name,
        Attribute::Redeclared(_, _) => false,
    }
}

/// Whether one of `attributes` has this name and isn't a redeclaration.
fn any_own(attributes: &[Attribute<'_>], name: Word<'_>) -> bool
    ensures { result
        ≡ list_any (is_own (capitals name.entry)) (map attribute_of attributes.now) }
{
    attributes.iter().any(|attribute| is_own(attribute, name))
}

/// Returns the numbers of the data types of a declaration.
fn row_of(data_types: &DataTypes, number: u32) -> &[u32]
    ensures { result.now ≡ get_or (graph_of data_types.now.rows.items) number [] }
{
    match data_types.rows.get(number as usize) {
        Some(row) => row,
        None => &[],
    }
}

/// Returns the number at an index of `row`, if any.
fn number_at(row: &[u32], place: usize) -> Option<u32>
    ensures { result ≡ slice_get row.now place }
{
    row.get(place).copied()
}

/// Returns the number of the data type of the own explicit attribute `name`, if any.
fn explicit_type(row: &[u32], explicits: &[Explicit<'_>], name: Word<'_>) -> Option<u32>
    ensures { result ≡ number_where (types_own (capitals name.entry)) row.now
        (map explicit_typing (map explicit_of explicits.now)) }
{
    let place = explicits
        .iter()
        .position(|explicit| any_own(explicit.attributes.as_slice(), name))?;
    number_at(row, place)
}

/// Returns the number of the data type of the own derived attribute `name`, if any.
fn derived_type(row: &[u32], deriveds: &[Derived<'_>], name: Word<'_>) -> Option<u32>
    ensures { result ≡ number_where (types_own (capitals name.entry)) row.now
        (map derived_typing (map derived_of deriveds.now)) }
{
    let place = deriveds
        .iter()
        .position(|derived| is_own(&derived.attribute, name))?;
    number_at(row, place)
}

/// Returns the number of the data type of the own inverse attribute `name`, if any.
fn inverse_type(row: &[u32], inverses: &[Inverse<'_>], name: Word<'_>) -> Option<u32>
    ensures { result ≡ number_where (types_own (capitals name.entry)) row.now
        (map inverse_typing (map inverse_of inverses.now)) }
{
    let place = inverses
        .iter()
        .position(|inverse| is_own(&inverse.attribute, name))?;
    number_at(row, place)
}

/// Returns the rest of `row` after its first `count` numbers, or an empty one if it is shorter.
fn behind(row: &[u32], count: usize) -> &[u32]
    ensures { result.now ≡ drop count row.now }
{
    match row.get(count..) {
        Some(rest) => rest,
        None => &[],
    }
}

/// Returns the number of the data type of the own attribute `name` of `entity`, if any.
fn own_type(row: &[u32], entity: &Entity<'_>, name: Word<'_>) -> Option<u32>
    ensures { result ≡ number_where (types_own (capitals name.entry)) row.now
        (typings (entity_of entity.now)) }
{
    let explicits = entity.explicits.as_slice();
    if let Some(number) = explicit_type(row, explicits, name) {
        return Some(number);
    }
    let rest = behind(row, explicits.len());
    let deriveds = entity.derived_attributes();
    if let Some(number) = derived_type(rest, deriveds, name) {
        return Some(number);
    }
    let last = behind(rest, deriveds.len());
    inverse_type(last, entity.inverse_attributes(), name)
}

/// Returns the number of the data type with which `entity` declares its own attribute of this name,
/// of any class. `None` if it declares none.
pub fn first_type(
    names: &Names<'_, '_>,
    data_types: &DataTypes,
    entity: u32,
    attribute: Word<'_>,
) -> Option<u32>
    requires resolved { IsResolved (the_schema names.now) }
    requires rows { AreNumberRowsOf whole_types (all_data_types (the_schema names.now))
        (the_schema names.now).declarations (graph_of data_types.now.rows.items) }
    ensures { (p : Name) → IsEntity (the_schema names.now) p
        → HasNumber (the_schema names.now) p entity
        → IsFirstTypeAt (the_schema names.now) p (capitals attribute.entry) result }
{
    let declaration = names.at(entity)?;
    match declaration {
        Declaration::Entity(declared) => own_type(row_of(data_types, entity), declared, attribute),
        _ => None,
    }
}

/// Returns the number of the entity that declares the attribute to which `SELF\entity.attribute`
/// refers. `None` if `entity` isn't the name of an entity.
fn entity_origin(
    names: &Names<'_, '_>,
    lines: &[Vec<u32>],
    entity: Word<'_>,
    attribute: Word<'_>,
) -> Option<u32>
    requires lines { HaveLines (the_schema names.now) (graph_of lines.now) }
    requires each { length lines.now ≡ length names.now.schema.now.declarations.items }
    ensures { IsNumberOf (the_schema names.now) (IsOrigin (the_schema names.now)
        (capitals entity.entry) (capitals attribute.entry)) result }
{
    let number = names.find(entity)?;
    match names.declaration(number) {
        Declaration::Entity(_) => origin(names, lines, number, attribute),
        _ => None,
    }
}

/// Returns the number of the entity that declares the attribute which `attribute` redeclares.
/// `None` if it redeclares none.
pub fn redeclared_entity(
    names: &Names<'_, '_>,
    lines: &[Vec<u32>],
    attribute: Attribute<'_>,
) -> Option<u32>
    requires resolved { IsResolved (the_schema names.now) }
    requires lines { HaveLines (the_schema names.now) (graph_of lines.now) }
    requires each { length lines.now ≡ length names.now.schema.now.declarations.items }
    ensures { IsRedeclaredAt (the_schema names.now) (attribute_of attribute.entry) result }
{
    match attribute {
        Attribute::Unqualified(_) => None,
        Attribute::Redeclared(holder, name) => entity_origin(names, lines, holder, name),
    }
}

/// Whether both numbers are in the table and their data types are alike.
fn are_within_alike(shapes: &[Shape], first: u32, second: u32) -> bool
    requires { IsTable shapes.now }
    ensures { first < length shapes.now → second < length shapes.now
        → DecidesAlike shapes.now first second result }
{
    (first as usize) < shapes.len()
        && (second as usize) < shapes.len()
        && are_alike_types(shapes, first, second)
}

/// Whether `data_type` has the shape of the data type with which `entity` declares `attribute`
/// first (ISO 10303-11, 9.2.3.4).
pub fn has_first_shape(
    names: &Names<'_, '_>,
    data_types: &DataTypes,
    shapes: &[Shape],
    entity: u32,
    attribute: Word<'_>,
    data_type: u32,
) -> bool
    requires resolved { IsResolved (the_schema names.now) }
    requires rows { AreNumberRowsOf whole_types (all_data_types (the_schema names.now))
        (the_schema names.now).declarations (graph_of data_types.now.rows.items) }
    requires shapes { AreShapes (the_schema names.now) shapes.now }
    ensures { (p : Name) (k : DataTypeTree) → IsEntity (the_schema names.now) p
        → HasNumber (the_schema names.now) p entity
        → slice_get (all_data_types (the_schema names.now)) data_type ≡ Some k
        → IsKnown (the_schema names.now) k → IsTrue result
        ↔ HasFirstShape (the_schema names.now) p (capitals attribute.entry) k }
{
    data_types_are_known();
    match first_type(names, data_types, entity, attribute) {
        Some(first) => are_within_alike(shapes, first, data_type),
        None => false,
    }
}
