//! The value of an expression for a value of SELF.

ghost use Rattle.std.specs.Prelude.{◌≡◌, [], OnOk};
ghost use Rattle.express_syntax.specs.ExpressionViews.{tree_of};
ghost use Rattle.express_logic.specs.Views.{datum_of};
ghost use Rattle.rule_values.specs.Parts.{element_datum, holding};
ghost use Rattle.schema_derived_attributes.specs.Formulas.{formula_seen};
ghost use Rattle.rule_settings.specs.Settings.{IsSetting, Meant};
ghost use Rattle.rule_evaluation.specs.steps.Kept.{AreRight};
ghost use Rattle.rule_evaluation.specs.steps.Worths.{formula_worth, worth_at};

use crate::context::Context;
use crate::derived_values::{KeptValues, Wanted};
use crate::evaluation::evaluate;
use crate::scope::{Scope, Stopped};
use express_logic::datum::Datum;
use express_syntax::expression::Expr;
use rule_settings::setting::Setting;
use rule_values::element::Element;
use rule_values::part::Part;
use schema_derived_attributes::formula::Formula;
use std::alloc::{AllocError, Global};

/// Evaluates the formula of a derived attribute at `instance` into `value`, with the cached values
/// `kept`.
fn formula_value<'p, 'e, 'r, 't, 's: 'r, 'a: 'r>(
    alloc: Global,
    setting: &'p Setting<'s, 't, 'r, 'a, 'e, 'p>,
    kept: &KeptValues<'p, 'r>,
    scope: &mut Scope<'p, 'r>,
    formula: Formula<'s, 't>,
    instance: u64,
    value: &mut Datum<'r, Part<'p, 'r>>,
) -> Result<(), Stopped>
    requires setting { IsSetting setting.now }
    requires scope { scope.now.variables.items ≡ [] }
    ensures { OnOk result ((m : Meant setting.entry.now) → AreRight setting.entry.now m kept.now
        → datum_of holding value.new
        ≡ formula_worth setting.entry.now m instance (formula_seen formula.entry)) }
{
    let me: Element<'p, 'r> = Element::Instance(instance);
    let context = Context {
        setting,
        me,
        limit: formula.rank as u64,
        kept,
        level: 1,
    };
    evaluate(&context, formula.expression, alloc, scope, value)
}

/// Evaluates and caches the derived value `wanted`, unless it is cached. If others have to be
/// evaluated first, `wanted` is put onto the stack `waiting`, and the others above it.
fn keep_wanted<'p, 'e, 'r, 't, 's: 'r, 'a: 'r>(
    alloc: Global,
    setting: &'p Setting<'s, 't, 'r, 'a, 'e, 'p>,
    kept: &mut KeptValues<'p, 'r>,
    waiting: &mut Vec<Wanted>,
    wanted: Wanted,
) -> Result<(), AllocError>
    requires setting { IsSetting setting.now }
    ensures { OnOk result ((m : Meant setting.entry.now) → AreRight setting.entry.now m kept.old
        → AreRight setting.entry.now m kept.new) }
{
    if kept.has(wanted) {
        return Ok(());
    }
    let Some(formula) = setting.formula(wanted.derivation) else {
        return Ok(());
    };
    let mut scope: Scope<'p, 'r> = Scope::empty(alloc, kept.len());
    let mut value = Datum::Indeterminate;
    let instance = wanted.instance;
    match formula_value(
        alloc, setting, kept, &mut scope, formula, instance, &mut value,
    ) {
        Ok(()) => kept.keep(wanted, value),
        Err(Stopped::Memory) => Err(AllocError),
        Err(Stopped::Wants(first)) => {
            wait_for(waiting, scope, wanted, first)?;
            Ok(())
        }
    }
}

/// Puts `wanted` onto the stack `waiting`, and above it `first` and the derived values that `scope`
/// holds, which have to be evaluated before it.
fn wait_for<'p, 'r>(
    waiting: &mut Vec<Wanted>,
    scope: Scope<'p, 'r>,
    wanted: Wanted,
    first: Wanted,
) -> Result<(), AllocError> {
    let Scope { wanted: others, .. } = scope;
    waiting.push(wanted)?;
    waiting.push(first)?;
    for other in &others {
        waiting.push(*other)?;
    }
    Ok(())
}

/// Evaluates and caches the derived values on the stack `waiting`, each after those that it wants.
///
/// Each step caches a value or finds one that has to wait, so memory runs out before 2^64 steps.
fn keep_all<'p, 'e, 'r, 't, 's: 'r, 'a: 'r>(
    alloc: Global,
    setting: &'p Setting<'s, 't, 'r, 'a, 'e, 'p>,
    kept: &mut KeptValues<'p, 'r>,
    waiting: &mut Vec<Wanted>,
) -> Result<(), AllocError>
    requires setting { IsSetting setting.now }
    ensures { OnOk result ((m : Meant setting.entry.now) → AreRight setting.entry.now m kept.old
        → AreRight setting.entry.now m kept.new) }
{
    for _ in 0..u64::MAX {
        let Some(wanted) = waiting.pop() else {
            return Ok(());
        };
        keep_wanted(alloc, setting, kept, waiting, wanted)?;
    }
    Err(AllocError)
}

/// Evaluates `expression` into `value`, with `me` as SELF and the values of all derived attributes
/// of ranks below `limit` (ISO 10303-11, 9.2.1.2 and 12).
///
/// Derived values are evaluated directly only up to a few levels deep. All others are evaluated
/// once for each instance and cached, and then the evaluation of the expression begins again. So
/// the stack is bounded, whatever the schema.
///
/// # Errors
/// `AllocError` if an allocation is refused. A derived value is cached before each new beginning,
/// so memory runs out before 2^64 of them.
pub fn value_at<'p, 'e, 'r, 't, 's: 'r, 'a: 'r>(
    alloc: Global,
    setting: &'p Setting<'s, 't, 'r, 'a, 'e, 'p>,
    expression: &Expr<'s>,
    me: Element<'p, 'r>,
    limit: u64,
    value: &mut Datum<'r, Part<'p, 'r>>,
) -> Result<(), AllocError>
    requires setting { IsSetting setting.now }
    ensures { OnOk result ((m : Meant setting.entry.now) → datum_of holding value.new
        ≡ worth_at setting.entry.now m limit (element_datum me.entry) (tree_of expression.now)) }
{
    let mut kept: KeptValues<'p, 'r> = KeptValues::none(alloc);
    let mut me = me;
    for _ in 0..u64::MAX {
        let mut scope: Scope<'p, 'r> = Scope::empty(alloc, kept.len());
        let context = Context {
            setting,
            me,
            limit,
            kept: &kept,
            level: 0,
        };
        match evaluate(&context, expression, alloc, &mut scope, value) {
            Ok(()) => return Ok(()),
            Err(Stopped::Memory) => return Err(AllocError),
            Err(Stopped::Wants(first)) => {
                let Context { me: same, .. } = context;
                me = same;
                let Scope {
                    wanted: mut waiting,
                    ..
                } = scope;
                waiting.push(first)?;
                keep_all(alloc, setting, &mut kept, &mut waiting)?;
            }
        }
    }
    Err(AllocError)
}
