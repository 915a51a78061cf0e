//! The variables of QUERYs, by name.

ghost use Rattle.std.specs.Prelude.{[], MatchOption};
ghost use Rattle.express_syntax.specs.ExpressionViews.{capitals};
ghost use Rattle.express_syntax.specs.Schemas.{Schema};
ghost use Rattle.schema_semantics.specs.Sets.{IsVariable};
ghost use Rattle.schema_expression_types.specs.steps.Scopes.{inside};
ghost use Rattle.schema_expression_types.specs.steps.Meanings.{IsFound};

use crate::scope::Variable;
use step_literals::literal::Word;

/// Returns the innermost variable of this name, if any (ISO 10303-11, 12.6.7).
pub(crate) fn find_variable<'r, 'a>(
    variables: &'r [Variable<'a>],
    name: Word<'_>,
) -> Option<&'r Variable<'a>>
    ensures { (s : Schema) → MatchOption result
        (IsVariable (inside s variables.now []) (capitals name.entry) → ⊥)
        (λ v. IsFound s (inside s variables.now []) (capitals name.entry) v.now) }
{
    for i in (0..variables.len()).rev() {
        if variables[i].name == name {
            return Some(&variables[i]);
        }
    }
    None
}
