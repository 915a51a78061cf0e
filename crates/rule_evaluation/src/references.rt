//! Evaluation of references: SELF or a name, with qualifiers (ISO 10303-11, 12.7).

ghost use Rattle.std.specs.Prelude.{◌≡◌, ◌∷◌, [], OnOk};
ghost use Rattle.express_syntax.specs.Trees.{reference};
ghost use Rattle.express_syntax.specs.ExpressionViews.{capitals, root_of, tree_of, qualifiers_of};
ghost use Rattle.express_logic.specs.Data.{Datum as Worth};
ghost use Rattle.express_logic.specs.Views.{datum_of};
ghost use Rattle.conformance.specs.Operations.{bare, indexed};
ghost use Rattle.rule_values.specs.Parts.{holding};
ghost use Rattle.schema_names.specs.Numbers.{HasNumber};
ghost use Rattle.schema_underlying_types.specs.BaseViews.{name_at};
ghost use Rattle.rule_settings.specs.Settings.{IsSetting, IsFound, schema_in, or_nothing};
ghost use Rattle.rule_evaluation.specs.steps.Contexts.{Gives, worth_in, derived_in, formula_in};
ghost use Rattle.rule_evaluation.specs.steps.Contexts.{meaning_in, selected_in, named_in, unbound_in, item_in};

use crate::context::Context;
use crate::derived_values::Wanted;
use crate::evaluation::evaluate;
use crate::qualifiers::{
    attribute_behind, attribute_of_self, group_behind, instance_of, item_value, self_instance,
};
use crate::scope::{Scope, Stopped};
use express_logic::datum::Datum;
use express_syntax::expression::{Expr, Qualifier, Root};
use rule_settings::attributes::Found;
use rule_values::element::Element;
use rule_values::indices::indexed;
use rule_values::operations::strip_type;
use rule_values::part::Part;
use rule_values::variables::find;
use schema_attribute_sources::source::Derivation;
use schema_derived_attributes::formula::Formula;
use std::alloc::Global;
use std::mem;
use step_literals::literal::Word;

/// Evaluates a reference into `value`: SELF or a name, with its qualifiers.
#[cycle(evaluation)]
pub(crate) fn referred<'p, 'e, 'r, 't, 's: 'r, 'a: 'r, 'k>(
    context: &Context<'s, 't, 'r, 'a, 'e, 'p, 'k>,
    qualifiers: &[Qualifier<'s>],
    alloc: Global,
    scope: &mut Scope<'p, 'r>,
    root: Root<'s>,
    value: &mut Datum<'r, Part<'p, 'r>>,
) -> Result<(), Stopped>
    requires setting { IsSetting context.now.setting.now }
    ensures { OnOk result (Gives context.now scope.old.variables.items scope.new.variables.items
        (datum_of holding value.new)
        (λ m. meaning_in context.now m scope.old.variables.items (reference (root_of root.entry)
        (qualifiers_of qualifiers.now)))) }
{
    match root {
        Root::SelfInstance => {
            *value = context.me.datum();
            selected(context, qualifiers, alloc, scope, value)
        }
        Root::Name(name) => named(context, qualifiers, alloc, scope, name, value),
    }
}

/// Evaluates a name with qualifiers into `value`. The name is a variable or, if there is none, an
/// attribute of SELF or, if there is none, an item of an enumeration.
#[cycle(evaluation)]
fn named<'p, 'e, 'r, 't, 's: 'r, 'a: 'r, 'k>(
    context: &Context<'s, 't, 'r, 'a, 'e, 'p, 'k>,
    qualifiers: &[Qualifier<'s>],
    alloc: Global,
    scope: &mut Scope<'p, 'r>,
    name: Word<'s>,
    value: &mut Datum<'r, Part<'p, 'r>>,
) -> Result<(), Stopped>
    requires setting { IsSetting context.now.setting.now }
    ensures { OnOk result (Gives context.now scope.old.variables.items scope.new.variables.items
        (datum_of holding value.new)
        (λ m. named_in context.now m scope.old.variables.items (capitals name.entry)
        (qualifiers_of qualifiers.now))) }
{
    match find(&scope.variables, name) {
        Some(element) => {
            *value = element.datum();
            selected(context, qualifiers, alloc, scope, value)
        }
        None => unbound(context, qualifiers, alloc, scope, name, value),
    }
}

/// Evaluates a name that isn't a variable, with qualifiers, into `value`. The name is an attribute
/// of SELF or, if there is none, an item of an enumeration.
#[cycle(evaluation)]
fn unbound<'p, 'e, 'r, 't, 's: 'r, 'a: 'r, 'k>(
    context: &Context<'s, 't, 'r, 'a, 'e, 'p, 'k>,
    qualifiers: &[Qualifier<'s>],
    alloc: Global,
    scope: &mut Scope<'p, 'r>,
    name: Word<'s>,
    value: &mut Datum<'r, Part<'p, 'r>>,
) -> Result<(), Stopped>
    requires setting { IsSetting context.now.setting.now }
    ensures { OnOk result (Gives context.now scope.old.variables.items scope.new.variables.items
        (datum_of holding value.new)
        (λ m. unbound_in context.now m scope.old.variables.items (capitals name.entry)
        (qualifiers_of qualifiers.now))) }
{
    match attribute_of_self(context, name, value) {
        Found::Missing => item_behind(context, qualifiers, alloc, scope, name, value),
        Found::Value => selected(context, qualifiers, alloc, scope, value),
        Found::Derived(derivation) => {
            derived(
                alloc,
                context,
                scope,
                self_instance(context),
                derivation,
                value,
            )?;
            selected(context, qualifiers, alloc, scope, value)
        }
    }
}

/// Evaluates a name that is neither a variable nor an attribute, with qualifiers, into `value`. It
/// is an item of an enumeration, or the name of the enumeration that has the first qualifier as an
/// item.
#[cycle(evaluation)]
#[inline(never)]
fn item_behind<'p, 'e, 'r, 't, 's: 'r, 'a: 'r, 'k>(
    context: &Context<'s, 't, 'r, 'a, 'e, 'p, 'k>,
    qualifiers: &[Qualifier<'s>],
    alloc: Global,
    scope: &mut Scope<'p, 'r>,
    name: Word<'s>,
    value: &mut Datum<'r, Part<'p, 'r>>,
) -> Result<(), Stopped>
    requires setting { IsSetting context.now.setting.now }
    ensures { OnOk result (Gives context.now scope.old.variables.items scope.new.variables.items
        (datum_of holding value.new)
        (λ m. item_in context.now m scope.old.variables.items (capitals name.entry)
        (qualifiers_of qualifiers.now))) }
{
    let Some((first, others)) = qualifiers.split_first() else {
        *value = item_value(context, name);
        return Ok(());
    };
    match first {
        Qualifier::Attribute(item) => {
            if context.setting.is_item_of(name, *item) {
                *value = Datum::Element(*item);
                selected(context, others, alloc, scope, value)
            } else {
                *value = Datum::Indeterminate;
                Ok(())
            }
        }
        _ => {
            *value = Datum::Indeterminate;
            Ok(())
        }
    }
}

/// Replaces `value` by the result of applying `qualifiers`, one after the other.
#[cycle(evaluation)]
#[inline(never)]
fn selected<'p, 'e, 'r, 't, 's: 'r, 'a: 'r, 'k>(
    context: &Context<'s, 't, 'r, 'a, 'e, 'p, 'k>,
    qualifiers: &[Qualifier<'s>],
    alloc: Global,
    scope: &mut Scope<'p, 'r>,
    value: &mut Datum<'r, Part<'p, 'r>>,
) -> Result<(), Stopped>
    requires setting { IsSetting context.now.setting.now }
    ensures { OnOk result (Gives context.now scope.old.variables.items scope.new.variables.items
        (datum_of holding value.new)
        (λ m. selected_in context.now m scope.old.variables.items (qualifiers_of qualifiers.now)
        (datum_of holding value.old))) }
{
    for qualifier in qualifiers {
        strip_type(value);
        select(context, qualifier, alloc, scope, value)?;
    }
    Ok(())
}

/// Replaces `value`, which isn't a typed value, by the result of applying `qualifier`.
#[cycle(evaluation)]
#[inline(never)]
fn select<'p, 'e, 'r, 't, 's: 'r, 'a: 'r, 'k>(
    context: &Context<'s, 't, 'r, 'a, 'e, 'p, 'k>,
    qualifier: &Qualifier<'s>,
    alloc: Global,
    scope: &mut Scope<'p, 'r>,
    value: &mut Datum<'r, Part<'p, 'r>>,
) -> Result<(), Stopped>
    requires setting { IsSetting context.now.setting.now }
    ensures { OnOk result ((d : Worth) → datum_of holding value.old ≡ bare d
        → Gives context.now scope.old.variables.items scope.new.variables.items
        (datum_of holding value.new)
        (λ m. selected_in context.now m scope.old.variables.items
        (qualifiers_of (qualifier.now ∷ [])) d)) }
{
    let instance = instance_of(value);
    match qualifier {
        Qualifier::Attribute(name) => {
            let found = attribute_behind(context, *name, value);
            found_value(context, found, alloc, scope, instance, value)
        }
        Qualifier::Group(entity, name) => {
            let found = group_behind(context, *entity, *name, value);
            found_value(context, found, alloc, scope, instance, value)
        }
        Qualifier::Index(index) => element(context, index, alloc, scope, value),
    }
}

/// Replaces an aggregate by its element at the index that `index` evaluates to.
#[cycle(evaluation)]
#[inline(never)]
fn element<'p, 'e, 'r, 't, 's: 'r, 'a: 'r, 'k>(
    context: &Context<'s, 't, 'r, 'a, 'e, 'p, 'k>,
    index: &Expr<'s>,
    alloc: Global,
    scope: &mut Scope<'p, 'r>,
    value: &mut Datum<'r, Part<'p, 'r>>,
) -> Result<(), Stopped>
    requires setting { IsSetting context.now.setting.now }
    ensures { OnOk result (Gives context.now scope.old.variables.items scope.new.variables.items
        (datum_of holding value.new)
        (λ m. indexed (datum_of holding value.old)
        (bare (meaning_in context.now m scope.old.variables.items (tree_of index.now))))) }
{
    let mut place = Datum::Indeterminate;
    evaluate(context, index, alloc, scope, &mut place)?;
    strip_type(&mut place);
    *value = indexed(value, &place);
    Ok(())
}

/// Stores the value of an attribute of `instance` in `value`, if the look-up hasn't done so;
/// indeterminate if the attribute is missing.
#[cycle(evaluation)]
fn found_value<'p, 'e, 'r, 't, 's: 'r, 'a: 'r, 'k>(
    context: &Context<'s, 't, 'r, 'a, 'e, 'p, 'k>,
    found: Found,
    alloc: Global,
    scope: &mut Scope<'p, 'r>,
    instance: u64,
    value: &mut Datum<'r, Part<'p, 'r>>,
) -> Result<(), Stopped>
    requires setting { IsSetting context.now.setting.now }
    requires found { IsFound context.now.setting.now found }
    ensures { OnOk result (Gives context.now scope.old.variables.items scope.new.variables.items
        (datum_of holding value.new)
        (λ m. or_nothing (worth_in context.now m instance (datum_of holding value.old) found))) }
{
    match found {
        Found::Missing => {
            *value = Datum::Indeterminate;
            Ok(())
        }
        Found::Value => Ok(()),
        Found::Derived(derivation) => derived(alloc, context, scope, instance, derivation, value),
    }
}

/// Stores the value of a derived attribute of `instance` in `value`. The value is indeterminate if
/// the rank of the attribute isn't below the limit, or if the attribute is set aside.
///
/// If the value isn't cached, and `scope` doesn't let it be evaluated directly, the function fails
/// with [`Stopped::Wants`].
#[cycle(evaluation)]
#[inline(never)]
fn derived<'p, 'e, 'r, 't, 's: 'r, 'a: 'r, 'k>(
    alloc: Global,
    context: &Context<'s, 't, 'r, 'a, 'e, 'p, 'k>,
    scope: &mut Scope<'p, 'r>,
    instance: u64,
    derivation: Derivation,
    value: &mut Datum<'r, Part<'p, 'r>>,
) -> Result<(), Stopped>
    requires setting { IsSetting context.now.setting.now }
    requires number { HasNumber (schema_in context.now.setting.now)
        (name_at (schema_in context.now.setting.now) derivation.entity) derivation.entity }
    ensures { OnOk result (Gives context.now scope.old.variables.items scope.new.variables.items
        (datum_of holding value.new) (λ m. derived_in context.now m instance derivation)) }
{
    let Some(formula) = context.setting.formula(derivation) else {
        *value = Datum::Indeterminate;
        return Ok(());
    };
    if formula.rank as u64 >= context.limit {
        *value = Datum::Indeterminate;
        return Ok(());
    }
    let wanted = Wanted {
        instance,
        derivation,
    };
    let is_kept = context.kept.put(alloc, wanted, value)?;
    if is_kept {
        return Ok(());
    }
    if !scope.enters(context.level) {
        return Err(scope.want(wanted));
    }
    inside(alloc, context, scope, instance, formula, value)
}

/// Evaluates `formula`, whose rank is below the limit, at `instance` into `value`.
#[cycle(evaluation)]
#[inline(never)]
fn inside<'p, 'e, 'r, 't, 's: 'r, 'a: 'r, 'k>(
    alloc: Global,
    context: &Context<'s, 't, 'r, 'a, 'e, 'p, 'k>,
    scope: &mut Scope<'p, 'r>,
    instance: u64,
    formula: Formula<'s, 't>,
    value: &mut Datum<'r, Part<'p, 'r>>,
) -> Result<(), Stopped>
    requires setting { IsSetting context.now.setting.now }
    ensures { OnOk result (Gives context.now scope.old.variables.items scope.new.variables.items
        (datum_of holding value.new) (λ m. formula_in context.now m instance formula.entry)) }
{
    let me: Element<'p, 'r> = Element::Instance(instance);
    let inner = Context {
        setting: context.setting,
        me,
        limit: formula.rank as u64,
        kept: context.kept,
        level: context.level.saturating_add(1),
    };
    let outer = mem::replace(&mut scope.variables, Vec::new(alloc));
    let outcome = evaluate(&inner, formula.expression, alloc, scope, value);
    scope.variables = outer;
    outcome
}
