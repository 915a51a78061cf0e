//! The law of standard numbers.

ghost use Rattle.merge_classes.specs.Laws.{NumbersAreStandard};

/// The standard numbers of the classes of refinement are the standard table.
pub fn numbers_are_standard()
    ensures { NumbersAreStandard }
{}
