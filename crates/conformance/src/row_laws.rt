//! Laws of the rows of populations.

ghost use Rattle.conformance.specs.PlainRows.{RowsAreOne};
ghost use Rattle.conformance.specs.RowLaws.{RowsHaveNames, FilesNameInstances, BagsOfRowsArePinned};
ghost use Rattle.conformance.specs.RowLaws.{RowsOfConformingArePopulations};
ghost use Rattle.conformance.specs.RowLaws.{RowsOfFilesArePopulations};

/// A population has one list of rows.
pub fn rows_are_one()
    ensures { RowsAreOne }
{}

/// The names of rows are those of their instances, in order.
pub fn rows_have_names()
    ensures { RowsHaveNames }
{}

/// The names of the population of a file are those of the file's instances, in order. If the file
/// satisfies `FitsFile`, no name occurs twice.
pub fn files_name_instances()
    ensures { FilesNameInstances }
{}

/// Each reference in a row's SET or BAG of more than one value names a pinned instance, if at least
/// the weak pins are pinned.
pub fn bags_of_rows_are_pinned()
    ensures { BagsOfRowsArePinned }
{}

/// If a population conforms and no two of its instances have the same name, its rows are a
/// population: no name occurs twice, and each reference names a row.
pub fn rows_of_conforming_are_populations()
    ensures { RowsOfConformingArePopulations }
{}

/// If a file satisfies `FitsFile` and has no findings, its rows are a population.
pub fn rows_of_files_are_populations()
    ensures { RowsOfFilesArePopulations }
{}
