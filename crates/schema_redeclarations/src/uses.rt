//! The declarations and redeclarations of explicit attributes, by number.

ghost use Rattle.std.specs.Prelude.{◌≡◌, length, map, IfOk};
ghost use Rattle.graphs.specs.Graphs.{graph_of};
ghost use Rattle.schema_semantics.specs.Faults.{IsResolved};
ghost use Rattle.schema_names.specs.Numbers.{AreNumberRowsOf};
ghost use Rattle.schema_names.specs.Schemas.{the_schema};
ghost use Rattle.schema_data_types.specs.NumberedTypes.{whole_types, all_data_types};
ghost use Rattle.schema_data_types.specs.ShapeTables.{AreShapes};
ghost use Rattle.schema_explicit_attributes.specs.SupertypeLines.{HaveLines};
ghost use Rattle.schema_explicit_attributes.specs.Places.{places_of, all_places, ArePlaceRows};
ghost use Rattle.schema_redeclarations.specs.Uses.{AreUses};

use crate::derived_attributes::all_derived;
use crate::explicit_attributes::all_uses;
use schema_data_types::forms::DataTypes;
use schema_data_types::shapes::Shape;
use schema_explicit_attributes::attributes::Place;
use schema_names::names::Names;
use std::alloc::{AllocError, Global};

/// A declaration of an explicit attribute: one of the entity's own, or a redeclaration whose data
/// type has the shape of the attribute's first one.
#[derive(Clone, Copy, Debug, PartialEq, Eq)]
pub struct AttributeUse {
    /// The number of the explicit attribute.
    pub place: u32,
    /// The number of the data type.
    pub data_type: u32,
    pub is_optional: bool,
}

/// The declarations and redeclarations of explicit attributes in a schema, by declaration.
#[derive(Drop)]
pub struct Uses {
    /// The explicit declarations, in the order of the text, each once for each explicit attribute
    /// to which it applies.
    pub explicit: Vec<Vec<AttributeUse>>,
    /// The numbers of the explicit attributes that are redeclared as derived.
    pub derived: Vec<Vec<u32>>,
}

/// The tables of a schema.
#[derive(Clone, Copy)]
pub struct Sources<'a, 't, 'r> {
    pub names: &'r Names<'a, 't>,
    pub data_types: &'r DataTypes,
    /// By entity, its supertype chain.
    pub lines: &'r [Vec<u32>],
    /// By data type, its shape.
    pub shapes: &'r [Shape],
    /// The explicit attributes, in the order of the text.
    pub places: &'r [Place<'a, 't>],
    /// By entity, the numbers of the explicit attributes that it declares itself.
    pub own: &'r [Vec<u32>],
}

/// Returns the declarations and redeclarations of explicit attributes in a schema.
///
/// For each redeclared attribute, this takes time proportional to the length of the supertype chain
/// of the entity in the redeclaration, plus the count of attributes of the entity that declares it.
pub fn attribute_uses(alloc: Global, sources: &Sources<'_, '_, '_>) -> Result<Uses, AllocError>
    requires resolved { IsResolved (the_schema sources.now.names.now) }
    requires rows { AreNumberRowsOf whole_types (all_data_types (the_schema sources.now.names.now))
        (the_schema sources.now.names.now).declarations
        (graph_of sources.now.data_types.now.rows.items) }
    requires lines { HaveLines (the_schema sources.now.names.now) (graph_of sources.now.lines.now) }
    requires each { length sources.now.lines.now
        ≡ length sources.now.names.now.schema.now.declarations.items }
    requires shapes { AreShapes (the_schema sources.now.names.now) sources.now.shapes.now }
    requires places { places_of sources.now.places.now
        ≡ all_places (the_schema sources.now.names.now) }
    requires own { ArePlaceRows (all_places (the_schema sources.now.names.now))
        (the_schema sources.now.names.now).declarations (graph_of sources.now.own.now) }
    ensures { IfOk result (AreUses (the_schema sources.now.names.now)) }
{
    let explicit = all_uses(alloc, sources)?;
    let derived = all_derived(alloc, sources)?;
    Ok(Uses { explicit, derived })
}
