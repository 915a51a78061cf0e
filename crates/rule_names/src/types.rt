//! The types of values that TYPEOF names (ISO 10303-11, 15.25).

ghost use Rattle.std.specs.Prelude.{◌≡◌, ◌<◌, ◌↔◌, Bool, IsTrue, length, slice_get};
ghost use Rattle.std.specs.List.{list_any};
ghost use Rattle.express_syntax.specs.ExpressionViews.{capitals};
ghost use Rattle.express_syntax.specs.Schemas.{named};
ghost use Rattle.express_syntax.specs.Views.{if_some, declaration_of as declaration_seen};
ghost use Rattle.schema_semantics.specs.Faults.{IsResolved};
ghost use Rattle.schema_semantics.specs.Names.{Name, IsOrLeads, Renames};
ghost use Rattle.schema_names.specs.Numbers.{HasNumber};
ghost use Rattle.schema_names.specs.Schemas.{the_schema};
ghost use Rattle.schema_underlying_types.specs.BaseViews.{name_at};
ghost use Rattle.express_logic.specs.Views.{text_of};
ghost use Rattle.conformance.specs.Meanings.{says_type};
ghost use Rattle.schema_attribute_sources.specs.SourceViews.{types_seen, AreTypes};
ghost use Rattle.rule_names.specs.steps.Naming.{type_name, says_one, says_in};

use crate::qualified_names::says_name;
use express_logic::strings::AnyString;
use express_syntax::tree::Declaration;
use schema_attribute_sources::defined_types::is_defined_by;
use schema_names::names::Names;
use step_literals::literal::Word;

/// Whether `text` names the declaration numbered `number`, as TYPEOF does.
fn says_type(names: &Names<'_, '_>, number: u32, text: &AnyString<'_>) -> bool
    requires { HasNumber (the_schema names.now) (name_at (the_schema names.now) number) number }
    ensures { result ≡ says_type (the_schema names.now) (text_of text.now)
        (name_at (the_schema names.now) number) }
{
    match names.name(number) {
        Some(name) => says_name(names, name, text),
        None => false,
    }
}

/// Whether `text` names one of `types`, as TYPEOF does.
pub fn says_any(names: &Names<'_, '_>, types: &[u32], text: &AnyString<'_>) -> bool
    requires { AreTypes (the_schema names.now) types.now }
    ensures { result ≡ list_any (says_type (the_schema names.now) (text_of text.now))
        (types_seen (the_schema names.now) types.now) }
{
    for number in types {
        if says_type(names, *number, text) {
            return true;
        }
    }
    false
}

/// Returns the name of the declaration if it is that of a defined type.
fn type_name<'a>(declaration: &Declaration<'a>) -> Option<Word<'a>>
    ensures { if_some capitals result ≡ type_name (declaration_seen declaration.now) }
{
    match declaration {
        Declaration::Type(declared) => Some(declared.name),
        _ => None,
    }
}

/// Whether `other` is a defined type that `text` names, and by which the type numbered `number` is
/// defined.
fn says_defining(names: &Names<'_, '_>, number: u32, other: u32, text: &AnyString<'_>) -> bool
    requires resolved { IsResolved (the_schema names.now) }
    requires within { number < length names.now.schema.now.declarations.items }
    requires other { other < length names.now.schema.now.declarations.items }
    ensures { (m : Name) → HasNumber (the_schema names.now) m number
        → (defined : Name → Name → Bool)
        → ((n : Name) → IsTrue (defined m n)
        ↔ IsOrLeads (Renames (the_schema names.now)) (named m) (named n))
        → result ≡ says_in (the_schema names.now) defined (text_of text.now) m
        (slice_get (the_schema names.now).declarations other) }
{
    let Some(name) = type_name(names.declaration(other)) else {
        return false;
    };
    says_name(names, name, text) && is_defined_by(names, number, other)
}

/// Whether `text` names a defined type by which the type numbered `number` is defined.
pub fn says_definition(names: &Names<'_, '_>, number: u32, text: &AnyString<'_>) -> bool
    requires resolved { IsResolved (the_schema names.now) }
    requires within { number < length names.now.schema.now.declarations.items }
    ensures { (m : Name) → HasNumber (the_schema names.now) m number
        → (defined : Name → Name → Bool)
        → ((n : Name) → IsTrue (defined m n)
        ↔ IsOrLeads (Renames (the_schema names.now)) (named m) (named n))
        → result ≡ says_one (the_schema names.now) defined (text_of text.now) m
        (the_schema names.now).declarations }
{
    for other in 0..names.len() {
        if says_defining(names, number, other as u32, text) {
            return true;
        }
    }
    false
}
