//! Laws of rounds.

ghost use Rattle.partition_refinement.specs.RoundLaws.{PartedOffEarlier, RoundsAreTheRefinement, RoundsPart};

/// Any relation that refines round by round equals the counted rounds, and splits nothing in the
/// round after the last one.
pub fn rounds_are_the_refinement()
    ensures { RoundsAreTheRefinement }
{}

/// Each round after round 0 splits some pair of places.
pub fn rounds_part()
    ensures { RoundsPart }
{}

/// A class that came after round 0 was split off a class with a smaller number.
pub fn parted_off_earlier()
    ensures { PartedOffEarlier }
{}
