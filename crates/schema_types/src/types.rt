//! The types of a schema, without its rules and derived attributes.

ghost use Rattle.std.specs.Prelude.{◌≡◌, ◌<◌, Some, length, slice_get};
ghost use Rattle.graphs.specs.Graphs.{graph_of};
ghost use Rattle.express_syntax.specs.ExpressionViews.{capitals};
ghost use Rattle.schema_semantics.specs.Faults.{IsResolved};
ghost use Rattle.schema_names.specs.Numbers.{number_of};
ghost use Rattle.schema_names.specs.Schemas.{the_schema};
ghost use Rattle.schema_explicit_attributes.specs.Supertypes.{AreAbove};
ghost use Rattle.schema_explicit_attributes.specs.Places.{places_of, all_places, HavePlaces, ArePlaceRows};
ghost use Rattle.schema_types.specs.steps.Graphs.{AreSupers, IsKind, ArePlacesOf, place_of};

use schema_explicit_attributes::attributes::Place;
use schema_explicit_attributes::places::AttributePlaces;
use schema_names::names::Names;
use step_literals::literal::Word;

/// The types of a schema whose names are resolved.
///
/// The number of a type or an entity is the position of its declaration in the text, counted from
/// 0. The number of an explicit attribute is its position among the explicit attributes of the
/// text.
#[derive(Drop)]
pub struct ResolvedTypes<'a, 't> {
    /// The schema, and the numbers of its types and entities.
    pub names: Names<'a, 't>,
    /// By declaration, the numbers of an entity's proper supertypes.
    pub above: Vec<Vec<u32>>,
    /// The explicit attributes, and by declaration the numbers of those that an entity's instances
    /// have and of those that it declares itself.
    pub places: AttributePlaces<'a, 't>,
    pub ghost resolved: { ∥ IsResolved (the_schema names) ∥₁ },
    pub ghost above_are: { ∥ AreAbove (the_schema names) (graph_of above.items) ∥₁ },
    pub ghost above_each: { length above.items ≡ length names.schema.now.declarations.items },
    pub ghost attributes_are: { places_of places.attributes.items ≡ all_places (the_schema names) },
    pub ghost places_are: { ∥ HavePlaces (the_schema names) (graph_of places.rows.items) ∥₁ },
    pub ghost places_each: { length places.rows.items
        ≡ length names.schema.now.declarations.items },
    pub ghost own_are: { ∥ ArePlaceRows (all_places (the_schema names))
        (the_schema names).declarations (graph_of places.own.items) ∥₁ },
}

impl<'a, 't> ResolvedTypes<'a, 't> {
    /// Returns the number of the type or entity of this name, if any.
    pub fn find(&self, name: Word<'_>) -> Option<u32>
        ensures { result ≡ number_of (the_schema self.now.names) (capitals name.entry) }
    {
        self.names.find(name)
    }

    /// Returns the proper supertypes of `entity`, each once (ISO 10303-11, 9.2.3.3).
    pub fn supers(&self, entity: u32) -> &[u32]
        requires { entity < length self.now.names.schema.now.declarations.items }
        ensures { ∥ AreSupers (the_schema self.now.names) entity result.now ∥₁ }
    {
        &self.above[entity as usize]
    }

    /// Whether `entity` is `other` or one of its subtypes (ISO 10303-11, 9.2.3.3).
    pub fn is_kind_of(&self, entity: u32, other: u32) -> bool
        requires { entity < length self.now.names.schema.now.declarations.items }
        ensures { ∥ IsKind (the_schema self.now.names) entity other result ∥₁ }
    {
        entity == other || self.supers(entity).contains(&other)
    }

    /// Returns the numbers of the explicit attributes of an entity's instances, in order: those of
    /// its supertypes in turn, then its own, each once (ISO 10303-11, 9.2.3.3).
    pub fn places(&self, entity: u32) -> &[u32]
        requires { entity < length self.now.names.schema.now.declarations.items }
        ensures { ∥ ArePlacesOf (the_schema self.now.names) entity result.now ∥₁ }
    {
        &self.places.rows[entity as usize]
    }

    /// Returns the explicit attribute with this number, and the entity that declares it.
    pub fn place(&self, number: u32) -> Place<'a, 't>
        requires { number < length (all_places (the_schema self.now.names)) }
        ensures { slice_get (all_places (the_schema self.now.names)) number
            ≡ Some (place_of result) }
    {
        self.places.attributes[number as usize]
    }
}
