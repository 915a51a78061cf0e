//! The explicit attributes of the instances of each entity.

ghost use Rattle.std.specs.Prelude.{◌≡◌, length, IfOk};
ghost use Rattle.graphs.specs.Graphs.{graph_of};
ghost use Rattle.schema_semantics.specs.Faults.{IsResolved};
ghost use Rattle.schema_names.specs.Edges.{IsGraphOf, supertypes_in};
ghost use Rattle.schema_names.specs.Schemas.{the_schema};
ghost use Rattle.schema_explicit_attributes.specs.Places.{places_of, all_places, HavePlaces, ArePlaceRows};

use crate::attributes::{ExplicitAttributes, Place, explicit_attributes};
use graphs::edge_tables::tables;
use graphs::orders::order;
use schema_names::names::Names;
use std::alloc::{AllocError, Global};

/// The explicit attributes of the instances of each entity (ISO 10303-11, 9.2.3.3).
#[derive(Drop)]
pub struct AttributePlaces<'a, 't> {
    /// The explicit attributes of the schema, in the order of the text.
    pub attributes: Vec<Place<'a, 't>>,
    /// By declaration, the numbers of the explicit attributes that an entity inherits or declares,
    /// in the order of an instance's parameters.
    pub rows: Vec<Vec<u32>>,
    /// By declaration, the numbers of the explicit attributes that an entity declares itself.
    pub own: Vec<Vec<u32>>,
}

/// Returns the explicit attributes of the instances of each entity: those of its supertypes in
/// turn, then its own, each once.
///
/// The names of the schema are resolved, and `supertypes` is the graph of SUBTYPE OF. Takes time
/// proportional to the count of attributes that entities inherit.
///
/// # Errors
/// `AllocError` if memory runs out or there are more than 2^32 explicit attributes.
pub fn attribute_places<'a, 't>(
    alloc: Global,
    names: &Names<'a, 't>,
    supertypes: &[Vec<u32>],
) -> Result<AttributePlaces<'a, 't>, AllocError>
    requires resolved { IsResolved (the_schema names.now) }
    requires graph { IsGraphOf (the_schema names.now) supertypes_in (graph_of supertypes.now) }
    ensures attributes { IfOk result (λ p. places_of p.attributes.items
        ≡ all_places (the_schema names.now)) }
    ensures rows { IfOk result (λ p. HavePlaces (the_schema names.now) (graph_of p.rows.items)) }
    ensures each { IfOk result (λ p. length p.rows.items
        ≡ length names.now.schema.now.declarations.items) }
    ensures own { IfOk result (λ p. ArePlaceRows (all_places (the_schema names.now))
        (the_schema names.now).declarations (graph_of p.own.items)) }
{
    let ExplicitAttributes { places, own } = explicit_attributes(alloc, names.schema)?;
    let order = order(alloc, supertypes)?;
    let rows = tables(alloc, supertypes, &order, &own, places.len())?;
    Ok(AttributePlaces {
        attributes: places,
        rows,
        own,
    })
}
