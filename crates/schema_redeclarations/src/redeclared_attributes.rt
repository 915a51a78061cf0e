//! The explicit attribute to which a declared or redeclared attribute refers.

ghost use Rattle.std.specs.Prelude.{◌≡◌, ◌++◌, slice_get, OnOk};
ghost use Rattle.std.specs.List.{find};
ghost use Rattle.graphs.specs.Graphs.{graph_of, next};
ghost use Rattle.express_syntax.specs.ExpressionViews.{capitals};
ghost use Rattle.express_syntax.specs.Schemas.{DataType as DataTypeTree, redeclared};
ghost use Rattle.express_syntax.specs.Views.{attribute_of};
ghost use Rattle.schema_semantics.specs.Names.{Name};
ghost use Rattle.schema_names.specs.Schemas.{the_schema};
ghost use Rattle.schema_explicit_attributes.specs.Places.{places_of};
ghost use Rattle.schema_redeclarations.specs.steps.Speaking.{
  AreSources,
  ArePlacesOf,
  at_most_one,
  has_name,
  Redeclares,
  SpeaksOf,
  IsTypeAt,
  IsOwnAt,
};

use crate::uses::Sources;
use express_syntax::tree::Attribute;
use schema_attributes::redeclarations::{has_first_shape, redeclared_entity};
use schema_explicit_attributes::attributes::Place;
use std::alloc::AllocError;
use step_literals::literal::Word;

/// Returns the row with this number, if any, otherwise an empty one.
pub(crate) fn row_of(rows: &[Vec<u32>], number: usize) -> &[u32]
    ensures { result.now ≡ next (graph_of rows.now) number }
{
    match rows.get(number) {
        Some(row) => row,
        None => &[],
    }
}

/// Whether the explicit attribute with this number has this name.
fn has_name(places: &[Place<'_, '_>], number: u32, name: Word<'_>) -> bool
    ensures { result ≡ has_name (capitals name.entry) (slice_get (places_of places.now) number) }
{
    match places.get(number as usize) {
        Some(place) => *place.attribute == name,
        None => false,
    }
}

/// Returns the number of the own explicit attribute `name` of `entity`, if any.
fn own_place(sources: &Sources<'_, '_, '_>, entity: u32, name: Word<'_>) -> Option<u32>
    ensures { result ≡ find
        (λ q. has_name (capitals name.entry) (slice_get (places_of sources.now.places.now) q))
        (next (graph_of sources.now.own.now) entity) }
{
    row_of(sources.own, entity as usize)
        .iter()
        .find(|number| has_name(sources.places, **number, name))
        .copied()
}

/// Returns the number of the explicit attribute that a derived attribute redeclares, if any.
pub(crate) fn derived_place(sources: &Sources<'_, '_, '_>, attribute: Attribute<'_>) -> Option<u32>
    requires sources { AreSources sources.now }
    ensures { ArePlacesOf (the_schema sources.now.names.now)
        (Redeclares (the_schema sources.now.names.now) (attribute_of attribute.entry))
        (at_most_one result) }
{
    let Attribute::Redeclared(_, name) = attribute else {
        return None;
    };
    let entity = redeclared_entity(sources.names, sources.lines, attribute)?;
    own_place(sources, entity, name)
}

/// Returns the number of the explicit attribute that `attribute` redeclares with this data type:
/// one whose first data type has the same shape (ISO 10303-11, 9.2.3.4). `None` if there is no such
/// attribute.
fn redeclared_place(
    sources: &Sources<'_, '_, '_>,
    attribute: Attribute<'_>,
    name: Word<'_>,
    data_type: u32,
) -> Option<u32>
    requires sources { AreSources sources.now }
    requires named { (q : Name) × (attribute_of attribute ≡ redeclared q (capitals name)) }
    ensures { (n : Name) (k : DataTypeTree)
        → IsTypeAt (the_schema sources.now.names.now) k data_type
        → ArePlacesOf (the_schema sources.now.names.now)
        (SpeaksOf (the_schema sources.now.names.now) n k (attribute_of attribute.entry))
        (at_most_one result) }
{
    let entity = redeclared_entity(sources.names, sources.lines, attribute)?;
    if has_first_shape(
        sources.names,
        sources.data_types,
        sources.shapes,
        entity,
        name,
        data_type,
    ) {
        own_place(sources, entity, name)
    } else {
        None
    }
}

/// Returns the number of the explicit attribute to which `attribute` refers in a declaration with
/// this data type. `own` is the number of an attribute that isn't a redeclaration.
pub(crate) fn explicit_place(
    sources: &Sources<'_, '_, '_>,
    attribute: Attribute<'_>,
    own: Option<u32>,
    data_type: u32,
) -> Option<u32>
    requires sources { AreSources sources.now }
    ensures { (n : Name) (k : DataTypeTree)
        → IsTypeAt (the_schema sources.now.names.now) k data_type
        → IsOwnAt (the_schema sources.now.names.now) n (attribute_of attribute.entry) own
        → ArePlacesOf (the_schema sources.now.names.now)
        (SpeaksOf (the_schema sources.now.names.now) n k (attribute_of attribute.entry))
        (at_most_one result) }
{
    match attribute {
        Attribute::Unqualified(_) => own,
        Attribute::Redeclared(_, name) => redeclared_place(sources, attribute, name, data_type),
    }
}

/// Adds `number`, if any.
pub(crate) fn add(numbers: &mut Vec<u32>, number: Option<u32>) -> Result<(), AllocError>
    ensures { OnOk result (numbers.new.items ≡ numbers.old.items ++ at_most_one number) }
{
    if let Some(number) = number {
        numbers.push(number)?;
    }
    Ok(())
}
