//! Laws of the definitions.
ghost use Rattle.schema_data_types.specs.Laws.{DataTypesAreKnown};

/// In a schema whose names are resolved, each data type of the table is known, except those of
/// redeclared inverse attributes, on which there is no requirement (ISO 10303-11, 9.2.1.3).
pub fn data_types_are_known()
    ensures { DataTypesAreKnown }
{}
