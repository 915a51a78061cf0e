//! The meanings of the names that begin references.

ghost use Rattle.std.specs.Prelude.{◌↔◌, IfOk, IsTrue};
ghost use Rattle.express_syntax.specs.ExpressionViews.{capitals, qualifiers_of};
ghost use Rattle.schema_semantics.specs.Names.{Name};
ghost use Rattle.schema_semantics.specs.Sets.{IsVariable, MayTake, WithSubtypes, of_set};
ghost use Rattle.schema_names.specs.Schemas.{the_schema};
ghost use Rattle.schema_data_types.specs.steps.Values.{AreTables};
ghost use Rattle.schema_attribute_references.specs.steps.Taking.{schema_in};
ghost use Rattle.schema_expression_types.specs.steps.Scopes.{IsScope, own_in, variables_in};
ghost use Rattle.schema_expression_types.specs.steps.Meanings.{IsMeaning, BeginWithItem};

use crate::scope::Scope;
use crate::variables::find_variable;
use express_syntax::expression::Qualifier;
use schema_attribute_references::references::take_of_any;
use schema_attribute_references::taken_attributes::Taken;
use schema_data_types::items::is_item_of;
use schema_data_types::values::{Atom, Tables};
use std::alloc::{AllocError, Global};
use step_literals::literal::Word;

/// The meaning of a name that begins a reference (ISO 10303-11, 12.7).
#[derive(Drop)]
pub(crate) enum Meaning {
    /// A variable of a QUERY, with its possible values.
    Variable(Vec<Atom>),
    /// An attribute of SELF, or of a subtype.
    Attribute(Taken),
    /// An item of the enumeration whose name is before the dot.
    ItemOfType,
    /// An item of any enumeration.
    Item,
    Nothing,
}

/// Whether `qualifiers` begin with an item of the defined type `defined`.
fn begin_with_item<'a>(
    tables: &Tables<'a, '_, '_>,
    defined: Word<'_>,
    qualifiers: &[Qualifier<'a>],
) -> bool
    requires tables { AreTables tables.now }
    ensures { IsTrue result ↔ BeginWithItem (the_schema tables.now.names.now)
        (capitals defined.entry) (qualifiers_of qualifiers.now) }
{
    let Some(first) = qualifiers.first() else {
        return false;
    };
    match first {
        Qualifier::Attribute(item) => is_item_of(tables, defined, *item),
        Qualifier::Group(_, _) => false,
        Qualifier::Index(_) => false,
    }
}

/// Returns the meaning of a name that is neither a variable nor an attribute.
fn item_meaning<'a>(
    scope: &Scope<'a, '_, '_, '_>,
    name: Word<'_>,
    qualifiers: &[Qualifier<'a>],
) -> Meaning
    requires scope { IsScope scope.now }
    ensures { (IsVariable (variables_in scope.now) (capitals name.entry) → ⊥)
        → ((p : Name) → MayTake (schema_in scope.now.known)
        (of_set (WithSubtypes (schema_in scope.now.known) (own_in scope.now))
        (capitals name.entry)) p → ⊥)
        → IsMeaning (schema_in scope.now.known) (own_in scope.now) (variables_in scope.now)
        (capitals name.entry) (qualifiers_of qualifiers.now) result }
{
    if begin_with_item(&scope.known.tables, name, qualifiers) {
        Meaning::ItemOfType
    } else if scope.items.has(name) {
        Meaning::Item
    } else {
        Meaning::Nothing
    }
}

/// Returns the first of these that `name` is: a variable, an attribute of SELF, the type before an
/// enumeration item, an item of any enumeration.
pub(crate) fn meaning_of<'a>(
    alloc: Global,
    scope: &Scope<'a, '_, '_, '_>,
    name: Word<'_>,
    qualifiers: &[Qualifier<'a>],
) -> Result<Meaning, AllocError>
    requires scope { IsScope scope.now }
    ensures { IfOk result (IsMeaning (schema_in scope.now.known) (own_in scope.now)
        (variables_in scope.now) (capitals name.entry) (qualifiers_of qualifiers.now)) }
{
    if let Some(variable) = find_variable(scope.variables, name) {
        return Ok(Meaning::Variable(Vec::from_slice(alloc, &variable.may)?));
    }
    let taken = take_of_any(alloc, &scope.known, scope.own, name)?;
    if taken.is_some {
        Ok(Meaning::Attribute(taken))
    } else {
        Ok(item_meaning(scope, name, qualifiers))
    }
}
