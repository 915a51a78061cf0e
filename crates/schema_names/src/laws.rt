//! Laws of the definitions.

ghost use Rattle.schema_names.specs.Laws.{
  EdgesLeadWithin,
  NumbersAreNames,
  ReachedAreParts,
  ReachedAreSupertypes,
};

/// Names with one number are equal, and the number of a name is that of its declaration
/// (ISO 10303-11, 10.3).
pub fn numbers_are_names()
    ensures { NumbersAreNames }
{}

/// The numbers that are reachable along SUBTYPE OF are those of the proper supertypes
/// (ISO 10303-11, 9.2.3).
pub fn reached_are_supertypes()
    ensures { ReachedAreSupertypes }
{}

/// The numbers that are reachable along parts are those of the types that a defined type is made of
/// (ISO 10303-11, 8.3.2 and 8.4.2).
pub fn reached_are_parts()
    ensures { ReachedAreParts }
{}

/// Each edge ends at a declaration.
pub fn edges_lead_within()
    ensures { EdgesLeadWithin }
{}
