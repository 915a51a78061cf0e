//! Items of enumerations (ISO 10303-11, 8.4.1).

ghost use Rattle.std.specs.Prelude.{◌≡◌, ◌&&◌, Some};
ghost use Rattle.express_syntax.specs.ExpressionViews.{capitals};
ghost use Rattle.express_syntax.specs.Views.{
  names_of,
  underlying_of,
  declaration_of as declaration_seen,
};
ghost use Rattle.schema_semantics.specs.Faults.{IsResolved};
ghost use Rattle.conformance.specs.Bases.{Domain, IsDomain};
ghost use Rattle.conformance.specs.ParameterFits.{is_listed};
ghost use Rattle.schema_names.specs.Schemas.{the_schema};
ghost use Rattle.schema_underlying_types.specs.BaseViews.{items_of, items_in};
ghost use Rattle.conformance.specs.Meanings.{type_names, items_in as of_base};
ghost use Rattle.rule_values.specs.TableValues.{named_base};
ghost use Rattle.rule_values.specs.Tables.{AreValueTypes};
ghost use Rattle.rule_names.specs.steps.Naming.{is_type};

use crate::tables::SettingTables;
use express_syntax::tree::{Declaration, Underlying};
use rule_values::types::ValueTypes;
use schema_names::names::Names;
use schema_underlying_types::base::Base;
use step_literals::literal::Word;

/// Whether `declaration` is that of a defined type.
fn is_type(declaration: &Declaration<'_>) -> bool
    ensures { result ≡ is_type (declaration_seen declaration.now) }
{
    match declaration {
        Declaration::Type(_) => true,
        _ => false,
    }
}

/// Returns the items of an enumeration; empty for any other type.
fn items_of<'d, 'a>(underlying: &'d Underlying<'a>) -> &'d [Word<'a>]
    ensures { names_of result.now ≡ items_of (underlying_of underlying.now) }
{
    match underlying {
        Underlying::Enumeration(items) => items,
        Underlying::Select(_) | Underlying::DataType(_) => &[],
    }
}

/// Returns the items of an enumeration; empty for any other declaration.
fn items_in<'d, 'a>(declaration: &'d Declaration<'a>) -> &'d [Word<'a>]
    ensures { names_of result.now ≡ items_in (Some (declaration_seen declaration.now)) }
{
    match declaration {
        Declaration::Type(declared) => items_of(&declared.underlying),
        _ => &[],
    }
}

/// Whether `name` is one of `names`.
fn is_among(names: &[Word<'_>], name: Word<'_>) -> bool
    ensures { result ≡ is_listed (capitals name.entry) (names_of names.now) }
{
    names.iter().any(|each| name == *each)
}

/// Returns the underlying type of the type or entity called `name`.
fn base_of(types: &ValueTypes<'_>, name: Word<'_>) -> Base
    ensures { result ≡ named_base types.now (capitals name.entry) }
{
    *types.of_name(name)
}

/// Whether the defined type called `declared` stands for an enumeration with the item `name`.
pub fn is_item_of(
    names: &Names<'_, '_>,
    tables: &SettingTables<'_, '_>,
    declared: Word<'_>,
    name: Word<'_>,
) -> bool
    requires resolved { IsResolved (the_schema names.now) }
    requires tables { AreValueTypes (the_schema names.now) tables.now.value_types }
    ensures { (d : Domain) → IsDomain (the_schema names.now) d
        → result ≡ (is_listed (capitals declared.entry) (type_names (the_schema names.now))
        && is_listed (capitals name.entry) (of_base (d.of_name (capitals declared.entry)))) }
{
    let Some(number) = names.find(declared) else {
        return false;
    };
    if !is_type(names.declaration(number)) {
        return false;
    }
    match base_of(&tables.value_types, declared) {
        Base::Enumeration(enumeration) => {
            is_among(items_in(names.declaration(enumeration)), name)
        }
        _ => false,
    }
}
