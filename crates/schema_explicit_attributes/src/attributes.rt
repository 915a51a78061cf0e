//! Explicit attributes, numbered in the order of the text.

ghost use Rattle.std.specs.Prelude.{◌≡◌, [], IfOk, OnOk};
ghost use Rattle.graphs.specs.Graphs.{graph_of};
ghost use Rattle.express_syntax.specs.ExpressionViews.{capitals};
ghost use Rattle.express_syntax.specs.Views.{attribute_of, explicit_of, declaration_of, entity_of};
ghost use Rattle.express_syntax.specs.SchemaViews.{schema_of};
ghost use Rattle.schema_semantics.specs.Names.{own_names, explicit_names};
ghost use Rattle.schema_semantics.specs.Attributes.{own_places};
ghost use Rattle.schema_explicit_attributes.specs.Places.{places_of, Adds, ArePlaceRows, of_attribute, of_explicit, places_in, all_places};

use express_syntax::tree::{Attribute, Declaration, Entity, Explicit, SchemaTree};
use std::alloc::{AllocError, Global};
use step_literals::literal::Word;

/// An explicit attribute: the entity that declares it, and its name, both borrowed from the schema
/// tree (ISO 10303-11, 9.2.1.1).
#[derive(Clone, Copy)]
pub struct Place<'a, 't> {
    pub entity: &'t Word<'a>,
    pub attribute: &'t Word<'a>,
}

/// The explicit attributes of a schema in the order of the text, and by declaration the numbers of
/// an entity's own. The number of an attribute is its index in `places`.
#[derive(Drop)]
pub struct ExplicitAttributes<'a, 't> {
    pub places: Vec<Place<'a, 't>>,
    pub own: Vec<Vec<u32>>,
}

/// Adds `attribute` and its number, unless it is a redeclaration.
fn add_attribute<'a, 't>(
    places: &mut Vec<Place<'a, 't>>,
    row: &mut Vec<u32>,
    entity: &'t Word<'a>,
    attribute: &'t Attribute<'a>,
) -> Result<(), AllocError>
    ensures { OnOk result (Adds (places_of places.old.items) row.old.items
        (of_attribute (capitals entity.now) (attribute_of attribute.now))
        (places_of places.new.items) row.new.items) }
{
    let Attribute::Unqualified(name) = attribute else {
        return Ok(());
    };
    let Ok(number) = u32::try_from(places.len()) else {
        return Err(AllocError);
    };
    places.push(Place {
        entity,
        attribute: name,
    })?;
    row.push(number)?;
    Ok(())
}

/// Adds the attributes of one explicit declaration, with their numbers.
fn add_explicit<'a, 't>(
    places: &mut Vec<Place<'a, 't>>,
    row: &mut Vec<u32>,
    entity: &'t Word<'a>,
    explicit: &'t Explicit<'a>,
) -> Result<(), AllocError>
    ensures { OnOk result (Adds (places_of places.old.items) row.old.items
        (of_explicit (capitals entity.now) (explicit_of explicit.now))
        (places_of places.new.items) row.new.items) }
{
    for attribute in explicit.attributes.as_slice() {
        add_attribute(places, row, entity, attribute)?;
    }
    Ok(())
}

/// Adds the own explicit attributes of `entity`, and returns their numbers.
fn add_entity<'a, 't>(
    alloc: Global,
    places: &mut Vec<Place<'a, 't>>,
    entity: &'t Entity<'a>,
) -> Result<Vec<u32>, AllocError>
    ensures { IfOk result (λ row. Adds (places_of places.old.items) []
        (own_places (entity_of entity.now)) (places_of places.new.items) row.items) }
{
    let mut row = Vec::new(alloc);
    for explicit in &entity.explicits {
        add_explicit(places, &mut row, &entity.name, explicit)?;
    }
    row.shrink_to_fit();
    Ok(row)
}

/// Adds the own explicit attributes of a declaration, and returns their numbers. Empty for anything
/// that isn't an entity.
fn add_declaration<'a, 't>(
    alloc: Global,
    places: &mut Vec<Place<'a, 't>>,
    declaration: &'t Declaration<'a>,
) -> Result<Vec<u32>, AllocError>
    ensures { IfOk result (λ row. Adds (places_of places.old.items) []
        (places_in (declaration_of declaration.now)) (places_of places.new.items) row.items) }
{
    match declaration {
        Declaration::Entity(entity) => add_entity(alloc, places, entity),
        _ => Ok(Vec::new(alloc)),
    }
}

/// Returns the explicit attributes of `schema`.
///
/// # Errors
/// `AllocError` if memory runs out or there are more than 2^32 explicit attributes.
pub fn explicit_attributes<'a, 't>(
    alloc: Global,
    schema: &'t SchemaTree<'a>,
) -> Result<ExplicitAttributes<'a, 't>, AllocError>
    ensures places { IfOk result (λ x. places_of x.places.items
        ≡ all_places (schema_of schema.now)) }
    ensures own { IfOk result (λ x. ArePlaceRows (places_of x.places.items)
        (schema_of schema.now).declarations (graph_of x.own.items)) }
{
    let mut places = Vec::new(alloc);
    let mut own = Vec::new(alloc);
    for declaration in &schema.declarations {
        let row = add_declaration(alloc, &mut places, declaration)?;
        own.push(row)?;
    }
    Ok(ExplicitAttributes { places, own })
}
