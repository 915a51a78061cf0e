//! Laws about the definitions, apart from any code.

ghost use Rattle.step_values.specs.Laws.{
  CellsAskTheirChildren,
  NormalFormsDecideAgreement,
  TestsDecideAgreement,
};
ghost use Rattle.step_values.specs.Shapes.{AgreementIsByShapes, ChangesDecide};

/// The tests of values and of lists of values pass exactly if these agree, where each reference
/// agrees with itself alone.
pub fn tests_decide_agreement()
    ensures { TestsDecideAgreement }
{}

/// Normal forms are equal exactly if the values agree according to the labels of their references.
pub fn normal_forms_decide_agreement()
    ensures { NormalFormsDecideAgreement }
{}

/// The value of a cell depends only on what is inside it, so the laws of columns hold for columns
/// of values.
pub fn a_cell_asks_what_is_inside()
    ensures { CellsAskTheirChildren }
{}

/// Values agree under a test exactly if they have one shape and the test passes their references
/// outside bags of more than one value, pair by pair.
pub fn agreement_is_by_shapes()
    ensures { AgreementIsByShapes }
{}

/// If classes get new numbers, references whose old numbers were equal pair by pair have equal new
/// numbers exactly if the changed ones are equal, at equal positions.
pub fn changes_decide()
    ensures { ChangesDecide }
{}
