//! Laws of the meaning of a schema.

ghost use Rattle.schema_semantics.specs.Laws.{
  ExplicitHavePlaces,
  FaultsAreOne,
  InvertedAreOne,
  KindsAreApart,
  KindsAreOrdered,
  OrderDecidesNoKinds,
  OriginsAreOne,
  PlacesAreExplicit,
  PlacesAreOne,
  PlacesStandOnce,
  RanksAreOne,
  AttributeRanksFall,
  SupertypesDecideKinds,
  UncheckedAreOne,
};

/// Being a kind of an entity is reflexive and transitive (ISO 10303-11, 9.2.3.3).
pub fn kinds_are_ordered()
    ensures { KindsAreOrdered }
{}

/// If the names are resolved, no two entities are kinds of each other (ISO 10303-11, 9.2.3).
pub fn kinds_are_apart()
    ensures { KindsAreApart }
{}

/// Only SUBTYPE OF decides which entity is a kind of which.
pub fn supertypes_decide_kinds()
    ensures { SupertypesDecideKinds }
{}

/// The order of declarations doesn't decide which entity is a kind of which.
pub fn the_order_decides_no_kinds()
    ensures { OrderDecidesNoKinds }
{}

/// A schema has at most one fault of names, and none exactly if its names are resolved.
pub fn faults_are_one()
    ensures { FaultsAreOne }
{}

/// No attribute occurs twice among the explicit attributes of an entity.
pub fn places_stand_once()
    ensures { PlacesStandOnce }
{}

/// Each explicit attribute of an entity is declared by the entity or by a supertype
/// (ISO 10303-11, 9.2.3.3).
pub fn places_are_explicit()
    ensures { PlacesAreExplicit }
{}

/// Each explicit attribute that an entity or a supertype declares is among the entity's explicit
/// attributes (ISO 10303-11, 9.2.3.3).
pub fn explicit_attributes_have_places()
    ensures { ExplicitHavePlaces }
{}

/// If the names are resolved, an entity has exactly one list of explicit attributes.
pub fn places_are_one()
    ensures { PlacesAreOne }
{}

/// If the names are resolved, `SELF\entity.attribute` redeclares exactly one attribute
/// (ISO 10303-11, 9.2.3.4).
pub fn origins_are_one()
    ensures { OriginsAreOne }
{}

/// If the names are resolved, an inverse attribute inverts exactly one attribute
/// (ISO 10303-11, 9.2.1.3).
pub fn inverted_are_one()
    ensures { InvertedAreOne }
{}

/// A derived attribute has a lesser rank than those that may use it.
pub fn ranks_fall()
    ensures { AttributeRanksFall }
{}

/// A derived attribute that isn't set aside has one rank.
pub fn ranks_are_one()
    ensures { RanksAreOne }
{}

/// A schema has one list of unchecked parts. Each part has one reason, the first that holds.
pub fn unchecked_parts_are_one()
    ensures { UncheckedAreOne }
{}
