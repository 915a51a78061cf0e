//! The existence of a meaning of derived attributes.

ghost use Rattle.std.specs.Prelude.{List, Option};
ghost use Rattle.express_syntax.specs.Schemas.{Schema};
ghost use Rattle.schema_semantics.specs.Attributes.{Derivation};
ghost use Rattle.conformance.specs.Attributes.{Formula as Meant, IsFormula};
ghost use Rattle.schema_derived_attributes.specs.Formulas.{AreFormulasOf};

use crate::formula::Formulas;

/// There is a function from the derived attributes of a schema to their formulas
/// (ISO 10303-11, 9.2.1.2).
pub fn formulas_are_said(formulas: &Formulas<'_, '_>)
    ensures { (s : Schema) → AreFormulasOf s formulas.now → (formula : Derivation → Option Meant)
        × ((e : Derivation) → IsFormula s e (formula e)) }
{}
