//! The variables of queries (ISO 10303-11, 12.6.7).

ghost use Rattle.std.specs.Prelude.{◌≡◌};
ghost use Rattle.std.specs.Option.{option_map};
ghost use Rattle.express_syntax.specs.ExpressionViews.{capitals};
ghost use Rattle.conformance.specs.Expressions.{variable};
ghost use Rattle.rule_values.specs.Parts.{element_datum};
ghost use Rattle.rule_values.specs.steps.Scopes.{variables_of};

use crate::element::Element;
use step_literals::literal::Word;

/// A variable of a query.
#[derive(Drop)]
pub struct Variable<'p, 'r> {
    pub name: Word<'r>,
    pub value: Element<'p, 'r>,
}

/// Returns the value of the innermost variable called `name`, if any. The innermost variable is the
/// last.
pub fn find<'v, 'p, 'r>(
    variables: &'v [Variable<'p, 'r>],
    name: Word<'_>,
) -> Option<&'v Element<'p, 'r>>
    ensures { option_map (λ value. element_datum value.now) result
        ≡ variable (variables_of variables.now) (capitals name.entry) }
{
    let (last, others) = variables.split_last()?;
    if name == last.name {
        Some(&last.value)
    } else {
        find(others, name)
    }
}
