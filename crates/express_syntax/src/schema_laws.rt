//! Laws about the definitions, apart from any code.

ghost use Rattle.express_syntax.specs.SchemaLaws.{
  FaultsOnce,
  ReadsOnce,
  ReadsOrFails,
  ReadsWithoutFault,
};

/// A text reads as at most one schema.
pub fn a_text_reads_as_one_schema()
    ensures { ReadsOnce }
{}

/// A text that reads as a schema has no fault.
pub fn what_reads_has_no_fault()
    ensures { ReadsWithoutFault }
{}

/// A text has at most one first fault.
pub fn a_text_has_one_first_fault()
    ensures { FaultsOnce }
{}

/// Each text reads as a schema, or has a first fault.
pub fn a_text_reads_or_has_a_fault()
    ensures { ReadsOrFails }
{}
