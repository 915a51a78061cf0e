//! Evaluation of queries (ISO 10303-11, 12.6.7).

ghost use Rattle.std.specs.Prelude.{IfOk, OnOk};
ghost use Rattle.express_syntax.specs.ExpressionViews.{capitals, tree_of};
ghost use Rattle.express_logic.specs.Views.{datum_of};
ghost use Rattle.express_logic.specs.Holdings.{size_of};
ghost use Rattle.conformance.specs.Operations.{bare, size};
ghost use Rattle.rule_values.specs.Parts.{holding, element_datum, picked, whole_elements};
ghost use Rattle.rule_settings.specs.Settings.{IsSetting};
ghost use Rattle.rule_evaluation.specs.steps.Contexts.{Gives, meaning_in};
ghost use Rattle.rule_evaluation.specs.steps.Contexts.{passes_in, filtered_in, queried_in};

use crate::context::Context;
use crate::evaluation::{evaluate, evaluate_truth};
use crate::query_elements::{counted_if, keep_if};
use crate::scope::{Scope, Stopped};
use express_logic::datum::{Datum, Held};
use express_syntax::expression::Expr;
use rule_values::contents::counted;
use rule_values::operations::{is_true, strip_type};
use rule_values::part::Part;
use rule_values::variables::Variable;
use std::alloc::Global;
use std::mem;
use step_literals::literal::Word;

/// Stores the elements of the value of `source` for which `condition` is TRUE in `value`;
/// indeterminate if `source` isn't an aggregate.
#[cycle(evaluation)]
#[inline(never)]
pub(crate) fn query<'p, 'e, 'r, 't, 's: 'r, 'a: 'r, 'k>(
    context: &Context<'s, 't, 'r, 'a, 'e, 'p, 'k>,
    source: &Expr<'s>,
    condition: &Expr<'s>,
    alloc: Global,
    scope: &mut Scope<'p, 'r>,
    name: Word<'s>,
    value: &mut Datum<'r, Part<'p, 'r>>,
) -> Result<(), Stopped>
    requires setting { IsSetting context.now.setting.now }
    ensures { OnOk result (Gives context.now scope.old.variables.items scope.new.variables.items
        (datum_of holding value.new)
        (λ m. queried_in context.now m scope.old.variables.items (capitals name.entry)
        (tree_of condition.now)
        (bare (meaning_in context.now m scope.old.variables.items (tree_of source.now))))) }
{
    evaluate(context, source, alloc, scope, value)?;
    strip_type(value);
    let Datum::Aggregate(part) = mem::replace(value, Datum::Indeterminate) else {
        return Ok(());
    };
    let kept = passing(context, condition, alloc, scope, name, &part)?;
    *value = Datum::Aggregate(part.keep(alloc, kept)?);
    Ok(())
}

/// Returns the indices, in the whole aggregate, of the elements of `source` for which `condition`
/// is TRUE.
#[cycle(evaluation)]
#[inline(never)]
fn passing<'p, 'e, 'r, 't, 's: 'r, 'a: 'r, 'k>(
    context: &Context<'s, 't, 'r, 'a, 'e, 'p, 'k>,
    condition: &Expr<'s>,
    alloc: Global,
    scope: &mut Scope<'p, 'r>,
    name: Word<'s>,
    source: &Part<'p, 'r>,
) -> Result<Vec<usize>, Stopped>
    requires setting { IsSetting context.now.setting.now }
    ensures { IfOk result (λ kept. Gives context.now scope.old.variables.items
        scope.new.variables.items
        (picked kept.items (whole_elements source.now))
        (λ m. filtered_in context.now m scope.old.variables.items (capitals name.entry)
        (tree_of condition.now)
        (holding source.now).elements)) }
{
    let mut kept = Vec::new(alloc);
    for i in 0..source.len() {
        let variable = Variable {
            name,
            value: source.element_value(i),
        };
        match passes(context, condition, alloc, scope, variable) {
            Ok(holds) => keep_if(&mut kept, holds, source.whole_index(i))?,
            Err(stopped) => {
                want_others(context, condition, alloc, scope, name, source, i);
                return Err(stopped);
            }
        }
    }
    Ok(kept)
}

/// Stores the number of elements that a QUERY keeps in `value`; indeterminate if `source` isn't an
/// aggregate.
#[cycle(evaluation)]
#[inline(never)]
pub(crate) fn sized_query<'p, 'e, 'r, 't, 's: 'r, 'a: 'r, 'k>(
    context: &Context<'s, 't, 'r, 'a, 'e, 'p, 'k>,
    source: &Expr<'s>,
    condition: &Expr<'s>,
    alloc: Global,
    scope: &mut Scope<'p, 'r>,
    name: Word<'s>,
    value: &mut Datum<'r, Part<'p, 'r>>,
) -> Result<(), Stopped>
    requires setting { IsSetting context.now.setting.now }
    ensures { OnOk result (Gives context.now scope.old.variables.items scope.new.variables.items
        (datum_of holding value.new)
        (λ m. size (queried_in context.now m scope.old.variables.items (capitals name.entry)
        (tree_of condition.now)
        (bare (meaning_in context.now m scope.old.variables.items (tree_of source.now)))))) }
{
    evaluate(context, source, alloc, scope, value)?;
    strip_type(value);
    let Datum::Aggregate(part) = &*value else {
        *value = Datum::Indeterminate;
        return Ok(());
    };
    let count = count_passing(context, condition, alloc, scope, name, part)?;
    *value = counted(count)?;
    Ok(())
}

/// Returns the number of elements of `source` for which `condition` is TRUE.
#[cycle(evaluation)]
#[inline(never)]
fn count_passing<'p, 'e, 'r, 't, 's: 'r, 'a: 'r, 'k>(
    context: &Context<'s, 't, 'r, 'a, 'e, 'p, 'k>,
    condition: &Expr<'s>,
    alloc: Global,
    scope: &mut Scope<'p, 'r>,
    name: Word<'s>,
    source: &Part<'p, 'r>,
) -> Result<usize, Stopped>
    requires setting { IsSetting context.now.setting.now }
    ensures { IfOk result (λ count. Gives context.now scope.old.variables.items
        scope.new.variables.items count
        (λ m. size_of (filtered_in context.now m scope.old.variables.items (capitals name.entry)
        (tree_of condition.now) (holding source.now).elements))) }
{
    let mut count = 0;
    for i in 0..source.len() {
        let variable = Variable {
            name,
            value: source.element_value(i),
        };
        match passes(context, condition, alloc, scope, variable) {
            Ok(holds) => count = counted_if(count, holds),
            Err(stopped) => {
                want_others(context, condition, alloc, scope, name, source, i);
                return Err(stopped);
            }
        }
    }
    Ok(count)
}

/// Whether `condition` is TRUE with `variable`.
#[cycle(evaluation)]
#[inline(never)]
fn passes<'p, 'e, 'r, 't, 's: 'r, 'a: 'r, 'k>(
    context: &Context<'s, 't, 'r, 'a, 'e, 'p, 'k>,
    condition: &Expr<'s>,
    alloc: Global,
    scope: &mut Scope<'p, 'r>,
    variable: Variable<'p, 'r>,
) -> Result<bool, Stopped>
    requires setting { IsSetting context.now.setting.now }
    ensures { IfOk result (λ holds. Gives context.now scope.old.variables.items
        scope.new.variables.items holds
        (λ m. passes_in context.now m scope.old.variables.items (capitals variable.entry.name)
        (tree_of condition.now) (element_datum variable.entry.value))) }
{
    scope.variables.push(variable)?;
    match evaluate_truth(context, condition, alloc, scope) {
        Ok(value) => {
            scope.variables.pop();
            Ok(is_true(value))
        }
        Err(stopped) => {
            scope.variables.pop();
            Err(stopped)
        }
    }
}

/// Evaluates `condition` for the elements of `source` after the one at index `tried`, only to
/// collect the derived values that it wants. So all these are evaluated before the condition is
/// evaluated again. Stops once enough are collected.
#[cycle(evaluation)]
#[inline(never)]
fn want_others<'p, 'e, 'r, 't, 's: 'r, 'a: 'r, 'k>(
    context: &Context<'s, 't, 'r, 'a, 'e, 'p, 'k>,
    condition: &Expr<'s>,
    alloc: Global,
    scope: &mut Scope<'p, 'r>,
    name: Word<'s>,
    source: &Part<'p, 'r>,
    tried: usize,
)
    requires setting { IsSetting context.now.setting.now }
{
    for i in tried.saturating_add(1)..source.len() {
        if !scope.goes_on() {
            return;
        }
        let variable = Variable {
            name,
            value: source.element_value(i),
        };
        let _unknown = passes(context, condition, alloc, scope, variable);
    }
}
