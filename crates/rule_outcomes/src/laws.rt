//! Laws about the definitions of expressions and rules.

ghost use Rattle.rule_outcomes.specs.Laws.{
  ElementsOfArraysStandAtTheirIndices,
  QueriesKeepWhatTheirConditionIsTrueOf,
  RulesOfTypesAreTriedForTheirValues,
};

/// The element of an ARRAY at an index is as many places after the first element as the index is
/// above the first index. At other indices there is no element (ISO 10303-11, 12.6.1).
pub fn elements_of_arrays_stand_at_their_indices()
    ensures { ElementsOfArraysStandAtTheirIndices }
{}

/// A QUERY keeps, in their order, the elements for which its condition is TRUE (ISO 10303-11,
/// 12.6.7).
pub fn queries_keep_what_their_condition_is_true_of()
    ensures { QueriesKeepWhatTheirConditionIsTrueOf }
{}

/// At an instance, a rule of a defined type is tried for the values of that type, or of a type that
/// is defined by it, that occur in values of its attributes at any depth (ISO 10303-11, 9.1 and
/// 9.2.2.2).
pub fn rules_of_types_are_tried_for_their_values()
    ensures { RulesOfTypesAreTriedForTheirValues }
{}
