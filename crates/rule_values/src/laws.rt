//! Laws about the definitions.

ghost use Rattle.rule_values.specs.Laws.{FittingValuesAreWorthTheSame};

/// By the tables of a schema, a value that fits its data type, or is unset or derived, has the
/// datum that the schema gives it.
pub fn fitting_values_are_worth_the_same()
    ensures { FittingValuesAreWorthTheSame }
{}
