//! Adding the findings at one part of an expression.

ghost use Rattle.std.specs.Prelude.{◌≡◌, false, OnOk};
ghost use Rattle.express_syntax.specs.Trees.{comparison, interval};
ghost use Rattle.express_syntax.specs.ExpressionViews.{tree_of, root_of, qualifiers_of};
ghost use Rattle.express_syntax.specs.declared.expression.Limit.{Limit};
ghost use Rattle.schema_attribute_references.specs.steps.Taking.{schema_in};
ghost use Rattle.schema_expression_types.specs.steps.Scopes.{IsScope, own_in, variables_in};
ghost use Rattle.schema_expression_analysis.specs.steps.Findings.{at_tree, at_path, Finds, Walks};
ghost use Rattle.schema_expression_analysis.specs.steps.Questions.{
  is_in,
  with_aggregate,
  with_call,
  IsContext,
  own_of_context,
};

use crate::comparisons::{is_bad_interval, is_bad_kind, is_bad_test};
use crate::context::Context;
use crate::survey::Survey;
use express_syntax::expression::{Expr, Function, Qualifier, Relation, Root};
use schema_expression_types::references::refer;
use schema_expression_types::scope::{Scope, Variable};
use std::alloc::{AllocError, Global};

/// Adds an aggregate initializer, which is allowed only on the right of IN.
pub(crate) fn note_aggregate(survey: &mut Survey, is_right_of_in: bool)
    ensures { survey.new ≡ with_aggregate is_right_of_in survey.old }
{
    survey.has_loose_aggregate = survey.has_loose_aggregate || !is_right_of_in;
}

/// Adds a function call. TYPEOF is allowed only on the right of IN.
pub(crate) fn note_call(survey: &mut Survey, is_right_of_in: bool, function: Function)
    ensures { survey.new ≡ with_call is_right_of_in function survey.old }
{
    let is_typeof = matches!(function, Function::Typeof);
    survey.has_bad_typeof = survey.has_bad_typeof || !is_right_of_in && is_typeof;
}

/// Whether `relation` is IN.
pub(crate) fn is_in(relation: Relation) -> bool
    ensures { result ≡ is_in relation }
{
    matches!(relation, Relation::In)
}

/// Adds the findings at a reference.
pub(crate) fn note_reference<'a>(
    alloc: Global,
    scope: &Scope<'a, '_, '_, '_>,
    survey: &mut Survey,
    root: Root<'_>,
    qualifiers: &[Qualifier<'a>],
) -> Result<(), AllocError>
    requires scope { IsScope scope.now }
    ensures { OnOk result (Finds (schema_in scope.now.known) survey.old
        (λ f. at_path (schema_in scope.now.known) (own_in scope.now) f
        (variables_in scope.now) (root_of root.entry) (qualifiers_of qualifiers.now))
        survey.new) }
{
    let reference = refer(alloc, scope, root, qualifiers)?;
    survey.has_unclear_name |= reference.is_unclear;
    survey.uses.extend_from_slice(&reference.uses)?;
    Ok(())
}

/// Adds the findings at a comparison.
pub(crate) fn note_comparison<'a>(
    alloc: Global,
    scope: &Scope<'a, '_, '_, '_>,
    survey: &mut Survey,
    left: &Expr<'a>,
    relation: Relation,
    right: &Expr<'a>,
) -> Result<(), AllocError>
    requires scope { IsScope scope.now }
    ensures { OnOk result (Finds (schema_in scope.now.known) survey.old
        (λ f. at_tree (schema_in scope.now.known) (own_in scope.now) f false
        (variables_in scope.now) (comparison (tree_of left.now) relation (tree_of right.now)))
        survey.new) }
{
    let is_bad_test = is_bad_test(alloc, scope, left, relation, right)?;
    let is_bad_kind = is_bad_kind(alloc, scope, left, relation, right)?;
    survey.has_bad_typeof |= is_bad_test;
    survey.has_bad_kind |= is_bad_kind;
    Ok(())
}

/// Adds the findings at an interval.
pub(crate) fn note_interval<'a>(
    alloc: Global,
    scope: &Scope<'a, '_, '_, '_>,
    survey: &mut Survey,
    low: &Expr<'a>,
    item: &Expr<'a>,
    high: &Expr<'a>,
) -> Result<(), AllocError>
    requires scope { IsScope scope.now }
    ensures { OnOk result ((above below : Limit) → Finds (schema_in scope.now.known) survey.old
        (λ f. at_tree (schema_in scope.now.known) (own_in scope.now) f false
        (variables_in scope.now)
        (interval (tree_of low.now) above (tree_of item.now) below (tree_of high.now)))
        survey.new) }
{
    let is_bad_kind = is_bad_interval(alloc, scope, low, item, high)?;
    survey.has_bad_kind |= is_bad_kind;
    Ok(())
}

/// Adds the findings at a comparison in the scope of `variables`.
pub(crate) fn note_comparison_inside<'a>(
    alloc: Global,
    context: &Context<'a, '_, '_>,
    variables: &[Variable<'a>],
    survey: &mut Survey,
    left: &Expr<'a>,
    relation: Relation,
    right: &Expr<'a>,
) -> Result<(), AllocError>
    requires context { IsContext context.now }
    ensures { OnOk result (Walks (schema_in context.now.known) variables.now survey.old
        (λ vs f. at_tree (schema_in context.now.known) (own_of_context context.now) f false
        vs (comparison (tree_of left.now) relation (tree_of right.now))) variables.now survey.new) }
{
    note_comparison(
        alloc,
        &context.with(variables),
        survey,
        left,
        relation,
        right,
    )
}

/// Adds the findings at an interval in the scope of `variables`.
pub(crate) fn note_interval_inside<'a>(
    alloc: Global,
    context: &Context<'a, '_, '_>,
    variables: &[Variable<'a>],
    survey: &mut Survey,
    low: &Expr<'a>,
    item: &Expr<'a>,
    high: &Expr<'a>,
) -> Result<(), AllocError>
    requires context { IsContext context.now }
    ensures { OnOk result ((above below : Limit)
        → Walks (schema_in context.now.known) variables.now survey.old
        (λ vs f. at_tree (schema_in context.now.known) (own_of_context context.now) f false
        vs (interval (tree_of low.now) above (tree_of item.now) below (tree_of high.now)))
        variables.now survey.new) }
{
    note_interval(alloc, &context.with(variables), survey, low, item, high)
}
