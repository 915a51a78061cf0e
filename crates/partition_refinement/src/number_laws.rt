//! The law that connects rounds and standard numbers.

ghost use Rattle.partition_refinement.specs.NumberLaws.{RefinedAreCounted};

/// The result of `refine` satisfies what `number` requires.
pub fn refined_are_counted()
    ensures { RefinedAreCounted }
{}
