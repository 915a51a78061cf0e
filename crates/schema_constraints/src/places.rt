//! Entities and explicit attributes by number.

ghost use Rattle.std.specs.Prelude.{◌≡◌, IfSome, slice_get};
ghost use Rattle.std.specs.List.{find};
ghost use Rattle.graphs.specs.Graphs.{graph_of, next};
ghost use Rattle.express_syntax.specs.ExpressionViews.{capitals};
ghost use Rattle.schema_semantics.specs.Names.{Name, IsEntity};
ghost use Rattle.schema_names.specs.Numbers.{HasNumber};
ghost use Rattle.schema_names.specs.Schemas.{the_schema};
ghost use Rattle.schema_explicit_attributes.specs.Places.{places_of};
ghost use Rattle.schema_attribute_references.specs.steps.Taking.{schema_in};
ghost use Rattle.schema_redeclarations.specs.steps.Speaking.{has_name};
ghost use Rattle.schema_redeclarations.specs.Uses.{HasPlace};
ghost use Rattle.schema_constraints.specs.steps.Sources.{AreSources};
ghost use Rattle.schema_constraints.specs.steps.Making.{IsNumberOf};

use crate::attribute_order::find_place;
use crate::sources::Sources;
use schema_explicit_attributes::attributes::Place;
use schema_explicit_attributes::own_attributes::{Meant, declares_at};
use schema_names::names::Names;
use step_literals::literal::Word;

/// Returns the number of the entity `name`.
pub(crate) fn entity_number(names: &Names<'_, '_>, name: Word<'_>) -> u32
    requires { IsEntity (the_schema names.now) (capitals name) }
    ensures { HasNumber (the_schema names.now) (capitals name.entry) result }
{
    names.find(name).unwrap()
}

/// Returns the row with this number, if any, otherwise an empty one.
fn row_of(rows: &[Vec<u32>], number: u32) -> &[u32]
    ensures { result.now ≡ next (graph_of rows.now) number }
{
    match rows.get(number as usize) {
        Some(row) => row,
        None => &[],
    }
}

/// Whether the explicit attribute with this number has this name.
fn has_name(places: &[Place<'_, '_>], number: u32, name: Word<'_>) -> bool
    ensures { result ≡ has_name (capitals name.entry) (slice_get (places_of places.now) number) }
{
    match places.get(number as usize) {
        Some(place) => *place.attribute == name,
        None => false,
    }
}

/// Returns the first explicit attribute of `row` that has this name, if any.
fn first_named(places: &[Place<'_, '_>], row: &[u32], name: Word<'_>) -> Option<u32>
    ensures { result
        ≡ find (λ q. has_name (capitals name.entry) (slice_get (places_of places.now) q)) row.now }
{
    row.iter()
        .find(|number| has_name(places, **number, name))
        .copied()
}

/// Up to this count of attributes, an entity is searched linearly.
const FEW: usize = 16;

/// Returns the name of the declaration `entity`, if any.
fn entity_name<'a>(names: &Names<'a, '_>, entity: u32) -> Option<Word<'a>>
    ensures { IfSome result (λ w. (p : Name) → HasNumber (the_schema names.now) p entity
        → capitals w ≡ p) }
{
    if entity as usize >= names.len() {
        return None;
    }
    names.name(entity)
}

/// Returns the number of the explicit attribute `name` of `entity`, by a binary search. `None`
/// proves nothing.
fn searched_place(sources: &Sources<'_, '_, '_>, entity: u32, name: Word<'_>) -> Option<u32>
    requires sources { AreSources sources.now }
    ensures { IfSome result (λ q. (p : Name) → HasNumber (schema_in sources.now.known) p entity
        → HasPlace (schema_in sources.now.known) (p, capitals name.entry) q) }
{
    let Some(entity) = entity_name(sources.known.tables.names, entity) else {
        return None;
    };
    find_place(sources.places, sources.ordered, entity, name)
}

/// Returns the number of the explicit attribute `name` that `entity`, which has many attributes,
/// declares itself, if any.
fn place_among_many(sources: &Sources<'_, '_, '_>, entity: u32, name: Word<'_>) -> Option<u32>
    requires sources { AreSources sources.now }
    ensures { (p : Name) → IsEntity (schema_in sources.now.known) p
        → HasNumber (schema_in sources.now.known) p entity
        → IsNumberOf (schema_in sources.now.known) (p, capitals name.entry) result }
{
    if !declares_at(sources.known.tables.names, entity, Meant::Explicit, name) {
        return None;
    }
    match searched_place(sources, entity, name) {
        Some(place) => Some(place),
        None => first_named(sources.places, row_of(sources.own, entity), name),
    }
}

/// Returns the number of the explicit attribute `name` that `entity` declares itself, if any
/// (ISO 10303-11, 9.2.1.1).
///
/// Takes time logarithmic in the count of attributes.
pub(crate) fn own_place(sources: &Sources<'_, '_, '_>, entity: u32, name: Word<'_>) -> Option<u32>
    requires sources { AreSources sources.now }
    ensures { (p : Name) → IsEntity (schema_in sources.now.known) p
        → HasNumber (schema_in sources.now.known) p entity
        → IsNumberOf (schema_in sources.now.known) (p, capitals name.entry) result }
{
    let row = row_of(sources.own, entity);
    if row.len() > FEW {
        return place_among_many(sources, entity, name);
    }
    first_named(sources.places, row, name)
}
