//! The types of values that TYPEOF names (ISO 10303-11, 15.25).

ghost use Rattle.std.specs.Prelude.{◌≡◌};
ghost use Rattle.std.specs.Option.{option_map};
ghost use Rattle.express_logic.specs.Logic.{known};
ghost use Rattle.express_logic.specs.Views.{datum_of, text_of};
ghost use Rattle.conformance.specs.Expressions.{is_of_type};
ghost use Rattle.rule_values.specs.Parts.{holding, capitals_of};
ghost use Rattle.rule_settings.specs.Settings.{IsSetting, is_defined_in};
ghost use Rattle.rule_evaluation.specs.steps.Contexts.{MeantBy, setting_in};

use crate::context::Context;
use express_logic::datum::Datum;
use express_logic::logical::{Logical, known};
use express_logic::strings::AnyString;
use rule_values::part::Part;
use step_literals::literal::Word;

/// Returns whether `text` names a type of `value`, as TYPEOF does; UNKNOWN if there is no text.
pub(crate) fn is_of_type<'p, 'r>(
    context: &Context<'_, '_, 'r, '_, '_, 'p, '_>,
    text: Option<AnyString<'_>>,
    value: &Datum<'r, Part<'p, 'r>>,
) -> Logical
    requires setting { IsSetting context.now.setting.now }
    ensures { (m : MeantBy context.now) → result ≡ is_of_type (setting_in context.now m)
        (option_map text_of text.entry) (datum_of holding value.now) }
{
    let Some(text) = text else {
        return Logical::Unknown;
    };
    match value {
        Datum::Instance(instance) => known(context.setting.has_type(*instance, &text)),
        Datum::Typed(part) => is_defined_by(context, part.type_name(), &text),
        _ => Logical::False,
    }
}

/// Returns whether `text` names the defined type called `name`, or one by which it is defined, as
/// TYPEOF does; FALSE if there is no name.
fn is_defined_by(
    context: &Context<'_, '_, '_, '_, '_, '_, '_>,
    name: Option<Word<'_>>,
    text: &AnyString<'_>,
) -> Logical
    requires setting { IsSetting context.now.setting.now }
    ensures { (m : MeantBy context.now) → result
        ≡ known (is_defined_in context.now.setting.now m.meant (capitals_of name.entry)
        (text_of text.now)) }
{
    match name {
        Some(name) => known(context.setting.is_defined_by(name, text)),
        None => Logical::False,
    }
}
