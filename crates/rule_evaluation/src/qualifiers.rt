//! Looking up attributes and items of enumerations, without evaluating derived attributes.

ghost use Rattle.std.specs.Prelude.{◌≡◌};
ghost use Rattle.std.specs.Option.{option_map};
ghost use Rattle.express_syntax.specs.ExpressionViews.{capitals};
ghost use Rattle.express_logic.specs.Views.{datum_of};
ghost use Rattle.conformance.specs.Expressions.{attribute_of, item_value, instance_attribute, instance_group};
ghost use Rattle.conformance.specs.Operations.{bare};
ghost use Rattle.rule_values.specs.Parts.{element_datum, holding};
ghost use Rattle.rule_settings.specs.Settings.{IsSetting, IsFound, or_nothing};
ghost use Rattle.rule_evaluation.specs.steps.Contexts.{MeantBy, setting_in, worth_in, instance_of};

use crate::context::Context;
use express_logic::datum::Datum;
use rule_settings::attributes::Found;
use rule_values::contents::bare;
use rule_values::element::Element;
use rule_values::part::Part;
use step_literals::literal::Word;

/// Looks up the attribute called `name` of the instance `value`, and replaces `value` by its value,
/// unless the attribute is derived. Reports that it is missing if `value` isn't an instance.
pub(crate) fn attribute_behind<'p, 'r>(
    context: &Context<'_, '_, 'r, '_, '_, 'p, '_>,
    name: Word<'_>,
    value: &mut Datum<'r, Part<'p, 'r>>,
) -> Found
    requires setting { IsSetting context.now.setting.now }
    ensures worth { (m : MeantBy context.now)
        → worth_in context.now m (instance_of (datum_of holding value.old))
        (datum_of holding value.new)
        result ≡ instance_attribute (setting_in context.now m) (datum_of holding value.old)
        (capitals name.entry) }
    ensures found { IsFound context.now.setting.now result }
{
    match value {
        Datum::Instance(instance) => {
            let instance = *instance;
            context.setting.attribute(instance, name, value)
        }
        _ => Found::Missing,
    }
}

/// Looks up the attribute called `name` of SELF, which is a value: a reference to an instance, or a
/// typed value of one. Stores its value in `value`, unless the attribute is derived.
#[inline(never)]
fn attribute_of_value<'p, 'r>(
    context: &Context<'_, '_, 'r, '_, '_, 'p, '_>,
    name: Word<'_>,
    value: &mut Datum<'r, Part<'p, 'r>>,
) -> Found
    requires setting { IsSetting context.now.setting.now }
    ensures worth { (m : MeantBy context.now)
        → worth_in context.now m (instance_of (bare (element_datum context.now.me)))
        (datum_of holding value.new) result
        ≡ attribute_of (setting_in context.now m) (element_datum context.now.me)
        (capitals name.entry) }
    ensures found { IsFound context.now.setting.now result }
{
    *value = bare(context.me.datum());
    attribute_behind(context, name, value)
}

/// Looks up the attribute called `name` of SELF, and stores its value in `value`, unless the
/// attribute is derived.
pub(crate) fn attribute_of_self<'p, 'r>(
    context: &Context<'_, '_, 'r, '_, '_, 'p, '_>,
    name: Word<'_>,
    value: &mut Datum<'r, Part<'p, 'r>>,
) -> Found
    requires setting { IsSetting context.now.setting.now }
    ensures worth { (m : MeantBy context.now)
        → worth_in context.now m (instance_of (bare (element_datum context.now.me)))
        (datum_of holding value.new) result
        ≡ attribute_of (setting_in context.now m) (element_datum context.now.me)
        (capitals name.entry) }
    ensures found { IsFound context.now.setting.now result }
{
    match context.me {
        Element::Instance(instance) => context.setting.attribute(instance, name, value),
        _ => attribute_of_value(context, name, value),
    }
}

/// Looks up the attribute that `\entity.name` refers to, of the instance `value`, and replaces
/// `value` by its value, unless the attribute is derived. Reports that it is missing if `value`
/// isn't an instance.
#[inline(never)]
pub(crate) fn group_behind<'p, 'r>(
    context: &Context<'_, '_, 'r, '_, '_, 'p, '_>,
    entity: Word<'_>,
    name: Word<'_>,
    value: &mut Datum<'r, Part<'p, 'r>>,
) -> Found
    requires setting { IsSetting context.now.setting.now }
    ensures worth { (m : MeantBy context.now)
        → or_nothing (worth_in context.now m (instance_of (datum_of holding value.old))
        (datum_of holding value.new) result)
        ≡ instance_group (setting_in context.now m) (datum_of holding value.old)
        (capitals entity.entry) (capitals name.entry) }
    ensures found { IsFound context.now.setting.now result }
{
    match value {
        Datum::Instance(instance) => {
            let instance = *instance;
            context.setting.attribute_of(instance, entity, name, value)
        }
        _ => Found::Missing,
    }
}

/// Returns the name of the instance that `value` is; 0 if it isn't an instance.
pub(crate) fn instance_of(value: &Datum<'_, Part<'_, '_>>) -> u64
    ensures { result ≡ instance_of (datum_of holding value.now) }
{
    match value {
        Datum::Instance(instance) => *instance,
        _ => 0,
    }
}

/// Returns the name of the instance that SELF refers to as a value; 0 if it refers to none.
#[inline(never)]
fn instance_inside(context: &Context<'_, '_, '_, '_, '_, '_, '_>) -> u64
    ensures { result ≡ instance_of (bare (element_datum context.now.me)) }
{
    instance_of(&bare(context.me.datum()))
}

/// Returns the name of the instance that SELF is or refers to; 0 if there is none.
pub(crate) fn self_instance(context: &Context<'_, '_, '_, '_, '_, '_, '_>) -> u64
    ensures { result ≡ instance_of (bare (element_datum context.now.me)) }
{
    match context.me {
        Element::Instance(instance) => instance,
        _ => instance_inside(context),
    }
}

/// Returns the item of an enumeration called `name`; indeterminate if no enumeration has it.
pub(crate) fn item_value<'p, 'r, 's: 'r>(
    context: &Context<'s, '_, 'r, '_, '_, 'p, '_>,
    name: Word<'s>,
) -> Datum<'r, Part<'p, 'r>>
    requires setting { IsSetting context.now.setting.now }
    ensures { (m : MeantBy context.now) → datum_of holding result ≡ item_value
        (setting_in context.now m) (capitals name.entry) }
{
    if context.setting.is_item(name) {
        Datum::Element(name)
    } else {
        Datum::Indeterminate
    }
}
