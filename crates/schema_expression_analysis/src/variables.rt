//! The variables of QUERYs.

ghost use Rattle.std.specs.Prelude.{[], IfOk, OnOk};
ghost use Rattle.express_syntax.specs.ExpressionViews.{capitals, tree_of};
ghost use Rattle.schema_semantics.specs.Sets.{Elements, May};
ghost use Rattle.schema_attribute_references.specs.steps.Taking.{IsSet, schema_in};
ghost use Rattle.schema_expression_types.specs.steps.Scopes.{inside};
ghost use Rattle.schema_expression_analysis.specs.steps.Findings.{Binds};
ghost use Rattle.schema_expression_analysis.specs.steps.Questions.{IsContext, own_of_context};

use crate::context::Context;
use express_syntax::expression::Expr;
use schema_data_types::values::Atom;
use schema_expression_types::scope::Variable;
use schema_expression_types::sets::{elements, possible};
use std::alloc::{AllocError, Global};
use step_literals::literal::Word;

/// Returns the possible values of the variable of a QUERY over `source` (ISO 10303-11, 12.6.7).
fn variable_over<'a>(
    alloc: Global,
    context: &Context<'a, '_, '_>,
    variables: &[Variable<'a>],
    source: &Expr<'a>,
) -> Result<Vec<Atom>, AllocError>
    requires context { IsContext context.now }
    ensures { IfOk result (λ t. IsSet (schema_in context.now.known)
        (Elements (schema_in context.now.known) (May (schema_in context.now.known)
        (own_of_context context.now) (inside (schema_in context.now.known) variables.now [])
        (tree_of source.now))) t.items) }
{
    let may = possible(alloc, &context.with(variables), source)?;
    elements(alloc, &context.known.tables, &may)
}

/// Adds the variable of a QUERY over `source` as the innermost one.
pub(crate) fn push_variable<'a>(
    alloc: Global,
    context: &Context<'a, '_, '_>,
    variables: &mut Vec<Variable<'a>>,
    name: Word<'a>,
    source: &Expr<'a>,
) -> Result<(), AllocError>
    requires context { IsContext context.now }
    ensures { OnOk result (Binds (schema_in context.now.known) (own_of_context context.now)
        variables.old.items (capitals name.entry) (tree_of source.now) variables.new.items) }
{
    let may = variable_over(alloc, context, variables, source)?;
    variables.push(Variable { name, may })?;
    Ok(())
}
