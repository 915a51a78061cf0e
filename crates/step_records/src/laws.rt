//! A law of cells of parameters.

ghost use Rattle.step_records.specs.Laws.{CellsAskTheirChildren};

/// The parameter of a cell depends only on the text and on the cells inside it, so the laws of
/// columns hold for columns of parameters.
pub fn a_cell_asks_what_is_inside()
    ensures { CellsAskTheirChildren }
{}
