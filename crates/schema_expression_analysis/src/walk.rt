//! Walking an expression, part by part.

ghost use Rattle.std.specs.Prelude.{false, [], ◌∷◌, OnOk};
ghost use Rattle.express_syntax.specs.ExpressionViews.{tree_of, trees_of, alternatives_of, qualifiers_of};
ghost use Rattle.schema_attribute_references.specs.steps.Taking.{schema_in};
ghost use Rattle.schema_expression_analysis.specs.steps.Findings.{
  Within,
  WithinAll,
  WithinOthers,
  WithinIndices,
  Walks,
};
ghost use Rattle.schema_expression_analysis.specs.steps.Questions.{IsContext, own_of_context};

use crate::context::Context;
use crate::notes::{
    is_in, note_aggregate, note_call, note_comparison_inside, note_interval_inside, note_reference,
};
use crate::survey::Survey;
use crate::variables::push_variable;
use express_syntax::expression::{Alternative, Expr, Qualifier};
use schema_expression_types::scope::Variable;
use std::alloc::{AllocError, Global};

/// Adds the findings in expressions.
#[cycle(walk)]
fn survey_all<'a>(
    alloc: Global,
    context: &Context<'a, '_, '_>,
    variables: &mut Vec<Variable<'a>>,
    survey: &mut Survey,
    expressions: &[Expr<'a>],
) -> Result<(), AllocError>
    requires context { IsContext context.now }
    ensures { OnOk result (Walks (schema_in context.now.known) variables.old.items survey.old
        (λ vs f. WithinAll (schema_in context.now.known) (own_of_context context.now) f
        vs (trees_of expressions.now)) variables.new.items survey.new) }
{
    for expression in expressions {
        survey_part(alloc, context, variables, survey, false, expression)?;
    }
    Ok(())
}

/// Adds the findings in the terms of a disjunction after the first.
#[cycle(walk)]
fn survey_alternatives<'a>(
    alloc: Global,
    context: &Context<'a, '_, '_>,
    variables: &mut Vec<Variable<'a>>,
    survey: &mut Survey,
    alternatives: &[Alternative<'a>],
) -> Result<(), AllocError>
    requires context { IsContext context.now }
    ensures { OnOk result (Walks (schema_in context.now.known) variables.old.items survey.old
        (λ vs f. WithinOthers (schema_in context.now.known) (own_of_context context.now) f
        vs (alternatives_of alternatives.now)) variables.new.items survey.new) }
{
    for alternative in alternatives {
        survey_part(alloc, context, variables, survey, false, &alternative.term)?;
    }
    Ok(())
}

/// Adds the findings in the indices of a reference.
#[cycle(walk)]
fn survey_indices<'a>(
    alloc: Global,
    context: &Context<'a, '_, '_>,
    variables: &mut Vec<Variable<'a>>,
    survey: &mut Survey,
    qualifiers: &[Qualifier<'a>],
) -> Result<(), AllocError>
    requires context { IsContext context.now }
    ensures { OnOk result (Walks (schema_in context.now.known) variables.old.items survey.old
        (λ vs f. WithinIndices (schema_in context.now.known) (own_of_context context.now) f
        vs (qualifiers_of qualifiers.now)) variables.new.items survey.new) }
{
    for qualifier in qualifiers {
        survey_qualifier(alloc, context, variables, survey, qualifier)?;
    }
    Ok(())
}

/// Adds the findings in the index of a qualifier, if any.
#[cycle(walk)]
fn survey_qualifier<'a>(
    alloc: Global,
    context: &Context<'a, '_, '_>,
    variables: &mut Vec<Variable<'a>>,
    survey: &mut Survey,
    qualifier: &Qualifier<'a>,
) -> Result<(), AllocError>
    requires context { IsContext context.now }
    ensures { OnOk result (Walks (schema_in context.now.known) variables.old.items survey.old
        (λ vs f. WithinIndices (schema_in context.now.known) (own_of_context context.now) f
        vs (qualifiers_of (qualifier.now ∷ []))) variables.new.items survey.new) }
{
    match qualifier {
        Qualifier::Index(index) => { survey_part(alloc, context, variables, survey, false, index) }
        _ => Ok(()),
    }
}

/// Adds the findings in an expression.
#[cycle(walk)]
pub(crate) fn survey_part<'a>(
    alloc: Global,
    context: &Context<'a, '_, '_>,
    variables: &mut Vec<Variable<'a>>,
    survey: &mut Survey,
    is_right_of_in: bool,
    expression: &Expr<'a>,
) -> Result<(), AllocError>
    requires context { IsContext context.now }
    ensures { OnOk result (Walks (schema_in context.now.known) variables.old.items survey.old
        (λ vs f. Within (schema_in context.now.known) (own_of_context context.now) f
        is_right_of_in vs (tree_of expression.now)) variables.new.items survey.new) }
{
    match expression {
        Expr::Literal(_) | Expr::Signed(_, _) => Ok(()),
        Expr::Reference(root, qualifiers) => {
            note_reference(
                alloc,
                &(&*context).with(variables),
                survey,
                *root,
                qualifiers,
            )?;
            survey_indices(alloc, context, variables, survey, qualifiers)
        }
        Expr::Parenthesized(inner) => {
            survey_part(alloc, context, variables, survey, is_right_of_in, inner)
        }
        Expr::Aggregate(items) => {
            note_aggregate(survey, is_right_of_in);
            survey_all(alloc, context, variables, survey, items)
        }
        Expr::Interval {
            low,
            item,
            high,
            ..
        } => {
            note_interval_inside(alloc, context, variables, survey, low, item, high)?;
            survey_part(alloc, context, variables, survey, false, low)?;
            survey_part(alloc, context, variables, survey, false, item)?;
            survey_part(alloc, context, variables, survey, false, high)
        }
        Expr::Query {
            variable,
            source,
            condition,
        } => {
            survey_part(alloc, context, variables, survey, false, source)?;
            push_variable(alloc, context, variables, *variable, source)?;
            survey_part(alloc, context, variables, survey, false, condition)?;
            variables.pop();
            Ok(())
        }
        Expr::Call(function, argument) => {
            note_call(survey, is_right_of_in, *function);
            survey_part(alloc, context, variables, survey, false, argument)
        }
        Expr::Nvl(first, second) => {
            survey_part(alloc, context, variables, survey, false, first)?;
            survey_part(alloc, context, variables, survey, false, second)
        }
        Expr::Not(inner) => survey_part(alloc, context, variables, survey, false, inner),
        Expr::Conjunction(first, others) => {
            survey_part(alloc, context, variables, survey, false, first)?;
            survey_all(alloc, context, variables, survey, others)
        }
        Expr::Disjunction(first, others) => {
            survey_part(alloc, context, variables, survey, false, first)?;
            survey_alternatives(alloc, context, variables, survey, others)
        }
        Expr::Comparison(left, relation, right) => {
            note_comparison_inside(alloc, context, variables, survey, left, *relation, right)?;
            survey_part(alloc, context, variables, survey, false, left)?;
            survey_part(alloc, context, variables, survey, is_in(*relation), right)
        }
    }
}
