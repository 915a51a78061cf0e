//! The sources of values that no type of an instance derives (ISO 10303-11, 9.2.1.1 and 9.2.1.3).

ghost use Rattle.std.specs.Prelude.{◌≡◌, ℕ, true, IfSome, slice_get};
ghost use Rattle.graphs.specs.Graphs.{graph_of, next};
ghost use Rattle.std.specs.List.{find, position_from};
ghost use Rattle.express_syntax.specs.ExpressionViews.{capitals};
ghost use Rattle.schema_explicit_attributes.specs.Places.{places_of};
ghost use Rattle.schema_types.specs.TypeTables.{IsMade};
ghost use Rattle.schema_names.specs.Numbers.{HasNumber};
ghost use Rattle.schema_names.specs.Schemas.{the_schema};
ghost use Rattle.schema_semantics.specs.Names.{IsEntity};
ghost use Rattle.schema_underlying_types.specs.BaseViews.{name_at};
ghost use Rattle.schema_attribute_sources.specs.AskedSources.{IsTypeNumber, IsStoredSource, IsKnownSource};
ghost use Rattle.schema_constraints.specs.steps.Ordered.{is_place};
ghost use Rattle.schema_attribute_sources.specs.StoredAttributes.{
  is_inverse,
  HasTest,
  IsTested,
  IsOwnPlace,
  IsStored,
  AreInverses,
};

use crate::derivations::{Asked, row_of};
use crate::source::Source;
use crate::sources::AttributeSources;
use schema_constraints::attribute_order::{find_inverse, find_place, is_place};
use schema_constraints::inverses::InverseAttribute;
use schema_explicit_attributes::attributes::Place;
use schema_explicit_attributes::own_attributes::{Meant, declares_at};
use schema_types::types::ResolvedTypes;
use step_literals::literal::Word;

/// Up to this count of attributes, an entity is searched linearly.
const FEW: usize = 16;

/// Returns the first number in `row` of the explicit attribute `name` of `entity`, if any.
fn place_among(
    places: &[Place<'_, '_>],
    row: &[u32],
    entity: Word<'_>,
    name: Word<'_>,
) -> Option<u32>
    ensures { result ≡ find (λ (q : ℕ). is_place (capitals entity.entry, capitals name.entry)
        (slice_get (places_of places.now) q)) row.now }
{
    row.iter()
        .find(|number| is_place(places, **number, entity, name))
        .copied()
}

/// Returns the number of `asked` if it is an explicit attribute, for an entity with many
/// attributes.
fn place_among_many(
    schema: &ResolvedTypes<'_, '_>,
    sources: &AttributeSources,
    entity: Word<'_>,
    asked: Asked<'_>,
    row: &[u32],
) -> Option<u32>
    requires made { IsMade schema.now }
    requires number { HasNumber (the_schema schema.now.names) (capitals entity) asked.entity }
    requires entity { IsEntity (the_schema schema.now.names) (capitals entity) }
    requires row { row.now ≡ next (graph_of schema.now.places.rows.items) asked.entity }
    ensures { IsOwnPlace (the_schema schema.now.names)
        (capitals entity.entry, capitals asked.entry.name) result }
{
    if !declares_at(&schema.names, asked.entity, Meant::Explicit, asked.name) {
        return None;
    }
    let places = schema.places.attributes.as_slice();
    match find_place(places, &sources.places, entity, asked.name) {
        Some(place) => Some(place),
        None => place_among(places, row, entity, asked.name),
    }
}

/// Returns the number of `asked` if it is an explicit attribute.
fn own_place(
    schema: &ResolvedTypes<'_, '_>,
    sources: &AttributeSources,
    asked: Asked<'_>,
) -> Option<u32>
    requires made { IsMade schema.now }
    requires number { IsTypeNumber (the_schema schema.now.names) asked.entity }
    requires entity { IsEntity (the_schema schema.now.names)
        (name_at (the_schema schema.now.names) asked.entity) }
    ensures { IsOwnPlace (the_schema schema.now.names)
        (name_at (the_schema schema.now.names) asked.entry.entity, capitals asked.entry.name)
        result }
{
    let Some(entity) = schema.names.name(asked.entity) else {
        return None;
    };
    let row = row_of(&schema.places.rows, asked.entity);
    if row.len() > FEW {
        return place_among_many(schema, sources, entity, asked, row);
    }
    place_among(&schema.places.attributes, row, entity, asked.name)
}

/// Whether `inverse` is `asked`.
fn is_inverse(inverse: &InverseAttribute<'_>, asked: Asked<'_>) -> bool
    ensures { result ≡ is_inverse asked.entry.entity (capitals asked.entry.name) inverse.now }
{
    inverse.entity == asked.entity && inverse.name == asked.name
}

/// Whether the inverse attribute with this number is `asked`.
fn is_inverse_at(inverses: &[InverseAttribute<'_>], number: u32, asked: Asked<'_>) -> bool
    ensures { result ≡ true → HasTest (is_inverse asked.entry.entity (capitals asked.entry.name))
        inverses.now number }
{
    match inverses.get(number as usize) {
        Some(inverse) => is_inverse(inverse, asked),
        None => false,
    }
}

/// Returns the number of `asked` if it is an inverse attribute, by a binary search. `None` proves
/// nothing.
fn searched_inverse(
    sources: &AttributeSources,
    inverses: &[InverseAttribute<'_>],
    asked: Asked<'_>,
) -> Option<u32>
    ensures { IfSome result
        (HasTest (is_inverse asked.entry.entity (capitals asked.entry.name)) inverses.now) }
{
    let Some(found) = find_inverse(inverses, &sources.inverses, asked.entity, asked.name) else {
        return None;
    };
    if is_inverse_at(inverses, found, asked) {
        Some(found)
    } else {
        None
    }
}

/// Returns the number of `asked` if it is an inverse attribute, by a linear search.
fn inverse_among(inverses: &[InverseAttribute<'_>], asked: Asked<'_>) -> Option<usize>
    ensures { result ≡ position_from (is_inverse asked.entry.entity (capitals asked.entry.name)) 0
        inverses.now }
{
    inverses
        .iter()
        .position(|inverse| is_inverse(inverse, asked))
}

/// Returns the number of `asked` if it is an inverse attribute.
fn inverse_number(
    sources: &AttributeSources,
    inverses: &[InverseAttribute<'_>],
    asked: Asked<'_>,
) -> Option<usize>
    ensures { IsTested (is_inverse asked.entry.entity (capitals asked.entry.name)) inverses.now
        result }
{
    match searched_inverse(sources, inverses, asked) {
        Some(number) => Some(number as usize),
        None => inverse_among(inverses, asked),
    }
}

/// Returns the source of `asked`, an explicit or an inverse attribute.
pub(crate) fn stored_source(
    schema: &ResolvedTypes<'_, '_>,
    sources: &AttributeSources,
    inverses: &[InverseAttribute<'_>],
    asked: Asked<'_>,
) -> Source
    requires made { IsMade schema.now }
    requires inverses { AreInverses (the_schema schema.now.names) inverses.now }
    requires number { IsTypeNumber (the_schema schema.now.names) asked.entity }
    requires stored { IsStored (the_schema schema.now.names)
        (name_at (the_schema schema.now.names) asked.entity) (capitals asked.name) }
    ensures source { IsStoredSource schema.now inverses.now asked.entry result }
    ensures numbered { IsKnownSource schema.now inverses.now result }
{
    if let Some(place) = own_place(schema, sources, asked) {
        return Source::Explicit(place);
    }
    match inverse_number(sources, inverses, asked) {
        Some(number) => Source::Inverse(number),
        None => Source::Unclear,
    }
}
