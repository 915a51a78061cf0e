//! Laws of columns, whatever their cells are and mean.

ghost use Rattle.parsing.specs.ColumnLaws.{EachPlaceSaysItsCell, ColumnsGoOn};

/// The value at an index of a column is the value of the cell at that index.
pub fn a_place_says_its_cell<C, T>()
    ensures { EachPlaceSaysItsCell C T }
{}

/// Cells whose children are in a column keep their values when they are moved to its end. The
/// values in the column don't change.
pub fn a_column_goes_on<C, T>()
    ensures { ColumnsGoOn C T }
{}
