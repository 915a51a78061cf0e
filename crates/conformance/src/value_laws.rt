//! Laws of values that fit and of populations that conform.

ghost use Rattle.conformance.specs.ValueLaws.{NoFindingExactlyWhereItFits, FitsInImages};
ghost use Rattle.conformance.specs.PopulationLaws.{NoFindingsExactlyWhereItConforms};
ghost use Rattle.conformance.specs.PopulationLaws.{KeepsApartWhatStandsTogether};
ghost use Rattle.conformance.specs.PopulationLaws.{ImagesConform, NoFindingsInRewritten};

/// If no reference is to an instance with an unknown keyword, a parameter has no finding exactly if
/// it is spelled as its data type requires and its value fits.
pub fn no_finding_exactly_where_it_fits()
    ensures { NoFindingExactlyWhereItFits }
{}

/// If a value fits, so does its image by a map of names that keeps types, and that keeps the
/// elements of each SET and of each aggregate OF UNIQUE in the value apart.
pub fn fits_in_images()
    ensures { FitsInImages }
{}

/// A file has no findings exactly if it names the schema, its records are spelled as their entities
/// require, and its population conforms.
pub fn no_findings_exactly_where_it_conforms()
    ensures { NoFindingsExactlyWhereItConforms }
{}

/// If the instances that occur in SETs, BAGs, or what is OF UNIQUE among the values of an instance
/// are pinned, a map that maps no two pinned instances to one keeps the elements of these values
/// apart.
pub fn keeps_apart_what_stands_together()
    ensures { KeepsApartWhatStandsTogether }
{}

/// If a population conforms, so does each image whose map keeps the elements of SETs, and of what
/// is OF UNIQUE, apart.
pub fn images_conform()
    ensures { ImagesConform }
{}

/// If a file has no findings, a file that is rewritten from it has none. The rewriting maps
/// references by a map of names that keeps types, and that keeps the elements of SETs and of what
/// is OF UNIQUE apart.
pub fn no_findings_in_rewritten()
    ensures { NoFindingsInRewritten }
{}
