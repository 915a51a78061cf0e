//! The law of findings.

ghost use Rattle.file_findings.specs.Findings.{ConformsWhereNothingIsFound};

/// A file conforms to its schema exactly if it has no findings.
pub fn conforms_where_nothing_is_found()
    ensures { ConformsWhereNothingIsFound }
{}
