//! Expressions in lists: operands of AND, OR and XOR, and the elements of aggregates that are
//! written out (ISO 10303-11, 12).

ghost use Rattle.std.specs.Prelude.{IfOk};
ghost use Rattle.express_syntax.specs.ExpressionViews.{alternatives_of, trees_of};
ghost use Rattle.express_logic.specs.Views.{datum_of};
ghost use Rattle.rule_values.specs.Parts.{holding};
ghost use Rattle.rule_settings.specs.Settings.{IsSetting};
ghost use Rattle.rule_evaluation.specs.steps.Contexts.{Gives, and_all_in, or_all_in, among_each_in};

use crate::context::Context;
use crate::evaluation::{evaluate, evaluate_truth};
use crate::scope::{Scope, Stopped};
use express_logic::comparison::equal;
use express_logic::datum::Datum;
use express_logic::logical::{Logical, and, or};
use express_syntax::expression::{Alternative, Expr};
use rule_values::operations::joined;
use rule_values::part::Part;
use std::alloc::Global;

/// Returns the AND of `first` and the values of `expressions`.
#[cycle(evaluation)]
#[inline(never)]
pub(crate) fn and_all<'p, 'e, 'r, 't, 's: 'r, 'a: 'r, 'k>(
    context: &Context<'s, 't, 'r, 'a, 'e, 'p, 'k>,
    expressions: &[Expr<'s>],
    alloc: Global,
    scope: &mut Scope<'p, 'r>,
    first: Logical,
) -> Result<Logical, Stopped>
    requires setting { IsSetting context.now.setting.now }
    ensures { IfOk result (λ d. Gives context.now scope.old.variables.items
        scope.new.variables.items d
        (λ m. and_all_in context.now m scope.old.variables.items first
        (trees_of expressions.now))) }
{
    let mut value = first;
    let mut done: usize = 0;
    for expression in expressions {
        done = done.saturating_add(1);
        match evaluate_truth(context, expression, alloc, scope) {
            Ok(other) => value = and(value, other),
            Err(stopped) => {
                want_each(context, expressions, alloc, scope, done);
                return Err(stopped);
            }
        }
    }
    Ok(value)
}

/// Returns the result of applying OR and XOR to `first` and the terms of `alternatives`, from left
/// to right.
#[cycle(evaluation)]
#[inline(never)]
pub(crate) fn or_all<'p, 'e, 'r, 't, 's: 'r, 'a: 'r, 'k>(
    context: &Context<'s, 't, 'r, 'a, 'e, 'p, 'k>,
    alternatives: &[Alternative<'s>],
    alloc: Global,
    scope: &mut Scope<'p, 'r>,
    first: Logical,
) -> Result<Logical, Stopped>
    requires setting { IsSetting context.now.setting.now }
    ensures { IfOk result (λ d. Gives context.now scope.old.variables.items
        scope.new.variables.items d
        (λ m. or_all_in context.now m scope.old.variables.items first
        (alternatives_of alternatives.now))) }
{
    let mut value = first;
    let mut done: usize = 0;
    for alternative in alternatives {
        done = done.saturating_add(1);
        match evaluate_truth(context, &alternative.term, alloc, scope) {
            Ok(term) => value = joined(alternative.junction, value, term),
            Err(stopped) => {
                want_terms(context, alternatives, alloc, scope, done);
                return Err(stopped);
            }
        }
    }
    Ok(value)
}

/// Returns whether `value` is equal to the value of one of `expressions`, as a logical.
#[cycle(evaluation)]
#[inline(never)]
pub(crate) fn among_each<'p, 'e, 'r, 't, 's: 'r, 'a: 'r, 'k>(
    context: &Context<'s, 't, 'r, 'a, 'e, 'p, 'k>,
    expressions: &[Expr<'s>],
    alloc: Global,
    scope: &mut Scope<'p, 'r>,
    value: &Datum<'r, Part<'p, 'r>>,
) -> Result<Logical, Stopped>
    requires setting { IsSetting context.now.setting.now }
    ensures { IfOk result (λ d. Gives context.now scope.old.variables.items
        scope.new.variables.items d
        (λ m. among_each_in context.now m scope.old.variables.items (datum_of holding value.now)
        (trees_of expressions.now))) }
{
    let mut result = Logical::False;
    let mut done: usize = 0;
    for expression in expressions {
        let mut other = Datum::Indeterminate;
        done = done.saturating_add(1);
        match evaluate(context, expression, alloc, scope, &mut other) {
            Ok(()) => result = or(result, equal(value, &other)),
            Err(stopped) => {
                want_each(context, expressions, alloc, scope, done);
                return Err(stopped);
            }
        }
    }
    Ok(result)
}

/// Evaluates `expressions` from index `first` on, only to collect the derived values that they
/// want. So all these are evaluated before the expressions are evaluated again. Stops once enough
/// are collected.
#[cycle(evaluation)]
#[inline(never)]
pub(crate) fn want_each<'p, 'e, 'r, 't, 's: 'r, 'a: 'r, 'k>(
    context: &Context<'s, 't, 'r, 'a, 'e, 'p, 'k>,
    expressions: &[Expr<'s>],
    alloc: Global,
    scope: &mut Scope<'p, 'r>,
    first: usize,
)
    requires setting { IsSetting context.now.setting.now }
{
    for i in first..expressions.len() {
        if !scope.goes_on() {
            return;
        }
        let _unknown = evaluate_truth(context, &expressions[i], alloc, scope);
    }
}

/// Evaluates the terms of `alternatives` from index `first` on, only to collect the derived values
/// that they want. So all these are evaluated before the terms are evaluated again. Stops once
/// enough are collected.
#[cycle(evaluation)]
#[inline(never)]
pub(crate) fn want_terms<'p, 'e, 'r, 't, 's: 'r, 'a: 'r, 'k>(
    context: &Context<'s, 't, 'r, 'a, 'e, 'p, 'k>,
    alternatives: &[Alternative<'s>],
    alloc: Global,
    scope: &mut Scope<'p, 'r>,
    first: usize,
)
    requires setting { IsSetting context.now.setting.now }
{
    for i in first..alternatives.len() {
        if !scope.goes_on() {
            return;
        }
        let _unknown = evaluate_truth(context, &alternatives[i].term, alloc, scope);
    }
}
