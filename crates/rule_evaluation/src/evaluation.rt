//! Evaluation of expressions (ISO 10303-11, 12).
//!
//! A function of the cycle `evaluation` fails with [`Stopped`], for one of two reasons:
//!
//! - an allocation was refused, or
//! - a derived value has to be cached first, so the evaluation is suspended and begins again.
//!
//! Values are written to a parameter instead of returned, because a datum has 72 bytes, which would
//! be cleared and copied at each node. Functions of the cycle with data as locals aren't inlined
//! into each other: locals are cleared at entry, so `evaluate` would clear those of all functions
//! at each node.

ghost use Rattle.std.specs.Prelude.{◌≡◌, true, IfOk, OnOk};
ghost use Rattle.std.specs.Option.{option_map};
ghost use Rattle.express_syntax.specs.ExpressionViews.{tree_of};
ghost use Rattle.express_logic.specs.Comparison.{member};
ghost use Rattle.express_logic.specs.Data.{logical};
ghost use Rattle.express_logic.specs.Views.{datum_of, text_of};
ghost use Rattle.conformance.specs.Operations.{bare, or_else, size};
ghost use Rattle.conformance.specs.Expressions.{of_call, string_of};
ghost use Rattle.rule_values.specs.steps.Forms.{is_condition};
ghost use Rattle.rule_values.specs.Parts.{holding};
ghost use Rattle.rule_settings.specs.Settings.{IsSetting};
ghost use Rattle.rule_evaluation.specs.steps.Contexts.{Gives, meaning_in, truth_in};
ghost use Rattle.rule_evaluation.specs.steps.Contexts.{between_in, within_in, related_in};

use crate::context::Context;
use crate::lists::{among_each, and_all, or_all, want_each, want_terms};
use crate::queries::{query, sized_query};
use crate::references::referred;
use crate::scope::{Scope, Stopped};
use crate::types::is_of_type;
use express_logic::comparison::member;
use express_logic::datum::Datum;
use express_logic::logical::{Logical, and, not};
use express_logic::strings::AnyString;
use express_syntax::expression::{Expr, Function, Limit, Relation};
use rule_values::contents::is_known;
use rule_values::literals::{literal_datum, signed_datum, string_of};
use rule_values::operations::{
    apply, compared, is_condition, is_in, is_sizeof, is_typeof, limited, replace_by_size,
    strip_type, truth,
};
use rule_values::part::Part;
use std::alloc::Global;

/// Evaluates `expression` into `value`.
#[cycle(evaluation)]
#[inline(never)]
pub(crate) fn evaluate<'p, 'e, 'r, 't, 's: 'r, 'a: 'r, 'k>(
    context: &Context<'s, 't, 'r, 'a, 'e, 'p, 'k>,
    expression: &Expr<'s>,
    alloc: Global,
    scope: &mut Scope<'p, 'r>,
    value: &mut Datum<'r, Part<'p, 'r>>,
) -> Result<(), Stopped>
    requires setting { IsSetting context.now.setting.now }
    ensures { OnOk result (Gives context.now scope.old.variables.items scope.new.variables.items
        (datum_of holding value.new)
        (λ m. meaning_in context.now m scope.old.variables.items (tree_of expression.now))) }
{
    match expression {
        Expr::Literal(literal) => {
            *value = literal_datum(*literal);
            Ok(())
        }
        Expr::Signed(sign, number) => {
            *value = signed_datum(*sign, *number);
            Ok(())
        }
        Expr::Reference(root, qualifiers) => {
            referred(context, qualifiers, alloc, scope, *root, value)
        }
        Expr::Parenthesized(inner) => evaluate(context, inner, alloc, scope, value),
        Expr::Aggregate(_) => {
            *value = Datum::Indeterminate;
            Ok(())
        }
        Expr::Query {
            variable,
            source,
            condition,
        } => query(context, source, condition, alloc, scope, *variable, value),
        Expr::Call(function, argument) => {
            call(context, argument, alloc, scope, *function, value)
        }
        Expr::Nvl(first, second) => first_known(context, first, second, alloc, scope, value),
        _ => {
            *value = Datum::Logical(condition(context, expression, alloc, scope)?);
            Ok(())
        }
    }
}

/// Returns the truth of `expression` as an operand of a logical operator. A condition is evaluated
/// without making a datum.
#[cycle(evaluation)]
#[inline(never)]
pub(crate) fn evaluate_truth<'p, 'e, 'r, 't, 's: 'r, 'a: 'r, 'k>(
    context: &Context<'s, 't, 'r, 'a, 'e, 'p, 'k>,
    expression: &Expr<'s>,
    alloc: Global,
    scope: &mut Scope<'p, 'r>,
) -> Result<Logical, Stopped>
    requires setting { IsSetting context.now.setting.now }
    ensures { IfOk result (λ d. Gives context.now scope.old.variables.items
        scope.new.variables.items d
        (λ m. truth_in context.now m scope.old.variables.items (tree_of expression.now))) }
{
    if is_condition(expression) {
        return condition(context, expression, alloc, scope);
    }
    let mut value = Datum::Indeterminate;
    evaluate(context, expression, alloc, scope, &mut value)?;
    Ok(truth(&mut value))
}

/// Returns the logical that a condition evaluates to.
#[cycle(evaluation)]
#[inline(never)]
fn condition<'p, 'e, 'r, 't, 's: 'r, 'a: 'r, 'k>(
    context: &Context<'s, 't, 'r, 'a, 'e, 'p, 'k>,
    expression: &Expr<'s>,
    alloc: Global,
    scope: &mut Scope<'p, 'r>,
) -> Result<Logical, Stopped>
    requires setting { IsSetting context.now.setting.now }
    requires form { is_condition (tree_of expression.now) ≡ true }
    ensures { IfOk result (λ d. Gives context.now scope.old.variables.items
        scope.new.variables.items (logical d)
        (λ m. meaning_in context.now m scope.old.variables.items (tree_of expression.now))) }
{
    match expression {
        Expr::Parenthesized(inner) => condition(context, inner, alloc, scope),
        Expr::Interval {
            low,
            above,
            item,
            below,
            high,
        } => between(context, low, item, high, alloc, scope, *above, *below),
        Expr::Not(inner) => Ok(not(evaluate_truth(context, inner, alloc, scope)?)),
        Expr::Conjunction(first, others) => {
            match evaluate_truth(context, first, alloc, scope) {
                Ok(value) => and_all(context, others, alloc, scope, value),
                Err(stopped) => {
                    want_each(context, others, alloc, scope, 0);
                    Err(stopped)
                }
            }
        }
        Expr::Disjunction(first, others) => {
            match evaluate_truth(context, first, alloc, scope) {
                Ok(value) => or_all(context, others, alloc, scope, value),
                Err(stopped) => {
                    want_terms(context, others, alloc, scope, 0);
                    Err(stopped)
                }
            }
        }
        Expr::Comparison(left, relation, right) => {
            related(context, left, right, alloc, scope, *relation)
        }
        _ => Ok(Logical::Unknown),
    }
}

/// Returns whether the value of `item` is between those of `low` and `high`, as a logical.
#[cycle(evaluation)]
#[inline(never)]
fn between<'p, 'e, 'r, 't, 's: 'r, 'a: 'r, 'k>(
    context: &Context<'s, 't, 'r, 'a, 'e, 'p, 'k>,
    low: &Expr<'s>,
    item: &Expr<'s>,
    high: &Expr<'s>,
    alloc: Global,
    scope: &mut Scope<'p, 'r>,
    above: Limit,
    below: Limit,
) -> Result<Logical, Stopped>
    requires setting { IsSetting context.now.setting.now }
    ensures { IfOk result (λ d. Gives context.now scope.old.variables.items
        scope.new.variables.items d
        (λ m. between_in context.now m scope.old.variables.items above below (tree_of low.now)
        (tree_of item.now) (tree_of high.now))) }
{
    let mut left = Datum::Indeterminate;
    first_value(context, low, item, alloc, scope, &mut left)?;
    let mut middle = Datum::Indeterminate;
    first_value(context, item, high, alloc, scope, &mut middle)?;
    let mut right = Datum::Indeterminate;
    evaluate(context, high, alloc, scope, &mut right)?;
    Ok(and(
        limited(above, &left, &middle),
        limited(below, &middle, &right),
    ))
}

/// Returns the result of comparing the values of `left` and `right` by `relation`.
#[cycle(evaluation)]
#[inline(never)]
fn related<'p, 'e, 'r, 't, 's: 'r, 'a: 'r, 'k>(
    context: &Context<'s, 't, 'r, 'a, 'e, 'p, 'k>,
    left: &Expr<'s>,
    right: &Expr<'s>,
    alloc: Global,
    scope: &mut Scope<'p, 'r>,
    relation: Relation,
) -> Result<Logical, Stopped>
    requires setting { IsSetting context.now.setting.now }
    ensures { IfOk result (λ d. Gives context.now scope.old.variables.items
        scope.new.variables.items d
        (λ m. related_in context.now m scope.old.variables.items relation
        (string_of (tree_of left.now))
        (meaning_in context.now m scope.old.variables.items (tree_of left.now))
        (tree_of right.now))) }
{
    let mut value = Datum::Indeterminate;
    first_value(context, left, right, alloc, scope, &mut value)?;
    if is_in(relation) {
        return within(context, right, alloc, scope, string_of(left), &value);
    }
    let mut other = Datum::Indeterminate;
    evaluate(context, right, alloc, scope, &mut other)?;
    Ok(compared(relation, &value, &other))
}

/// Returns whether `value` is an element of the aggregate that `expression` evaluates to, as a
/// logical.
#[cycle(evaluation)]
#[inline(never)]
fn is_member<'p, 'e, 'r, 't, 's: 'r, 'a: 'r, 'k>(
    context: &Context<'s, 't, 'r, 'a, 'e, 'p, 'k>,
    expression: &Expr<'s>,
    alloc: Global,
    scope: &mut Scope<'p, 'r>,
    value: &Datum<'r, Part<'p, 'r>>,
) -> Result<Logical, Stopped>
    requires setting { IsSetting context.now.setting.now }
    ensures { IfOk result (λ d. Gives context.now scope.old.variables.items
        scope.new.variables.items d
        (λ m. member (datum_of holding value.now)
        (bare (meaning_in context.now m scope.old.variables.items (tree_of expression.now))))) }
{
    let mut right = Datum::Indeterminate;
    evaluate(context, expression, alloc, scope, &mut right)?;
    strip_type(&mut right);
    Ok(member(value, &right))
}

/// Returns the result of IN with `expression` on the right. On the left is `value`, and `text` if
/// the left side is a string literal.
#[cycle(evaluation)]
#[inline(never)]
fn within<'p, 'e, 'r, 't, 's: 'r, 'a: 'r, 'k>(
    context: &Context<'s, 't, 'r, 'a, 'e, 'p, 'k>,
    expression: &Expr<'s>,
    alloc: Global,
    scope: &mut Scope<'p, 'r>,
    text: Option<AnyString<'s>>,
    value: &Datum<'r, Part<'p, 'r>>,
) -> Result<Logical, Stopped>
    requires setting { IsSetting context.now.setting.now }
    ensures { IfOk result (λ d. Gives context.now scope.old.variables.items
        scope.new.variables.items d
        (λ m. within_in context.now m scope.old.variables.items (option_map text_of text.entry)
        (datum_of holding value.now) (tree_of expression.now))) }
{
    match expression {
        Expr::Parenthesized(inner) => within(context, inner, alloc, scope, text, value),
        Expr::Aggregate(items) => {
            if is_known(value) {
                among_each(context, items, alloc, scope, value)
            } else {
                Ok(Logical::Unknown)
            }
        }
        Expr::Call(function, argument) => {
            if !is_typeof(*function) {
                return is_member(context, expression, alloc, scope, value);
            }
            let mut found = Datum::Indeterminate;
            evaluate(context, argument, alloc, scope, &mut found)?;
            Ok(is_of_type(context, text, &found))
        }
        _ => is_member(context, expression, alloc, scope, value),
    }
}

/// Evaluates the application of a function of the language to `argument` into `value`.
#[cycle(evaluation)]
fn call<'p, 'e, 'r, 't, 's: 'r, 'a: 'r, 'k>(
    context: &Context<'s, 't, 'r, 'a, 'e, 'p, 'k>,
    argument: &Expr<'s>,
    alloc: Global,
    scope: &mut Scope<'p, 'r>,
    function: Function,
    value: &mut Datum<'r, Part<'p, 'r>>,
) -> Result<(), Stopped>
    requires setting { IsSetting context.now.setting.now }
    ensures { OnOk result (Gives context.now scope.old.variables.items scope.new.variables.items
        (datum_of holding value.new)
        (λ m. of_call function (meaning_in context.now m scope.old.variables.items
        (tree_of argument.now)))) }
{
    if is_sizeof(function) {
        return sized(context, argument, alloc, scope, value);
    }
    evaluate(context, argument, alloc, scope, value)?;
    apply(function, value)?;
    Ok(())
}

/// Stores the number of elements of the value of `expression` in `value`: SIZEOF. The elements that
/// a QUERY keeps are counted without being collected.
#[cycle(evaluation)]
fn sized<'p, 'e, 'r, 't, 's: 'r, 'a: 'r, 'k>(
    context: &Context<'s, 't, 'r, 'a, 'e, 'p, 'k>,
    expression: &Expr<'s>,
    alloc: Global,
    scope: &mut Scope<'p, 'r>,
    value: &mut Datum<'r, Part<'p, 'r>>,
) -> Result<(), Stopped>
    requires setting { IsSetting context.now.setting.now }
    ensures { OnOk result (Gives context.now scope.old.variables.items scope.new.variables.items
        (datum_of holding value.new)
        (λ m. size (bare (meaning_in context.now m scope.old.variables.items
        (tree_of expression.now))))) }
{
    match expression {
        Expr::Query {
            variable,
            source,
            condition,
        } => sized_query(context, source, condition, alloc, scope, *variable, value),
        _ => {
            evaluate(context, expression, alloc, scope, value)?;
            replace_by_size(value)?;
            Ok(())
        }
    }
}

/// Evaluates `first` into `value` or, if that is indeterminate, `second`: NVL.
#[cycle(evaluation)]
fn first_known<'p, 'e, 'r, 't, 's: 'r, 'a: 'r, 'k>(
    context: &Context<'s, 't, 'r, 'a, 'e, 'p, 'k>,
    first: &Expr<'s>,
    second: &Expr<'s>,
    alloc: Global,
    scope: &mut Scope<'p, 'r>,
    value: &mut Datum<'r, Part<'p, 'r>>,
) -> Result<(), Stopped>
    requires setting { IsSetting context.now.setting.now }
    ensures { OnOk result (Gives context.now scope.old.variables.items scope.new.variables.items
        (datum_of holding value.new)
        (λ m. or_else (meaning_in context.now m scope.old.variables.items (tree_of first.now))
        (meaning_in context.now m scope.old.variables.items (tree_of second.now)))) }
{
    evaluate(context, first, alloc, scope, value)?;
    if is_known(value) {
        return Ok(());
    }
    evaluate(context, second, alloc, scope, value)
}

/// Evaluates `first` into `value`. If that is suspended, `second` is evaluated only to collect the
/// derived values that it wants, too.
#[cycle(evaluation)]
pub(crate) fn first_value<'p, 'e, 'r, 't, 's: 'r, 'a: 'r, 'k>(
    context: &Context<'s, 't, 'r, 'a, 'e, 'p, 'k>,
    first: &Expr<'s>,
    second: &Expr<'s>,
    alloc: Global,
    scope: &mut Scope<'p, 'r>,
    value: &mut Datum<'r, Part<'p, 'r>>,
) -> Result<(), Stopped>
    requires setting { IsSetting context.now.setting.now }
    ensures { OnOk result (Gives context.now scope.old.variables.items scope.new.variables.items
        (datum_of holding value.new)
        (λ m. meaning_in context.now m scope.old.variables.items (tree_of first.now))) }
{
    match evaluate(context, first, alloc, scope, value) {
        Ok(()) => Ok(()),
        Err(stopped) => {
            if scope.goes_on() {
                let _unknown = evaluate_truth(context, second, alloc, scope);
            }
            Err(stopped)
        }
    }
}
