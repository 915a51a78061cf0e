//! Adding the names that each part of a schema declares, in the order of the text.

ghost use Rattle.std.specs.Prelude.{ℕ, ◌+◌, ◌<◌, ◌^◌, map, flat_map, length, OnOk};
ghost use Rattle.express_syntax.specs.Views.{
  entity_of,
  underlying_of,
  declaration_of as declaration_seen,
};
ghost use Rattle.schema_semantics.specs.Names.{attribute_names};
ghost use Rattle.schema_semantics.specs.Faults.{in_scope, enumerated_items, declared_from};
ghost use Rattle.schema_faults.specs.steps.Repeated.{Sees};
ghost use Rattle.schema_faults.specs.steps.Parts.{
  word_in,
  own_in,
  explicit_in,
  derived_in,
  inverse_in,
  declared_in,
};

use crate::declared_names::{Seen, see};
use express_syntax::tree::{
    Attribute, Declaration, Derived, Entity, Explicit, Inverse, Underlying,
};
use std::alloc::AllocError;
use step_literals::literal::Word;

/// Adds names to a scope.
fn see_words<'a>(seen: &mut Seen<'a>, scope: u32, words: &[Word<'a>]) -> Result<(), AllocError>
    ensures { OnOk result (Sees seen.old seen.new (flat_map (word_in scope) words.now)) }
{
    for word in words {
        see(seen, scope, *word)?;
    }
    Ok(())
}

/// Adds the name of an attribute, unless it is a redeclaration.
fn see_own<'a>(seen: &mut Seen<'a>, scope: u32, attribute: Attribute<'a>) -> Result<(), AllocError>
    ensures { OnOk result (Sees seen.old seen.new (own_in scope attribute.entry)) }
{
    match attribute {
        Attribute::Unqualified(name) => see(seen, scope, name),
        Attribute::Redeclared(_, _) => Ok(()),
    }
}

/// Adds the names of attributes, except redeclarations.
fn see_each_own<'a>(
    seen: &mut Seen<'a>,
    scope: u32,
    attributes: &[Attribute<'a>],
) -> Result<(), AllocError>
    ensures { OnOk result (Sees seen.old seen.new (flat_map (own_in scope) attributes.now)) }
{
    for attribute in attributes {
        see_own(seen, scope, *attribute)?;
    }
    Ok(())
}

/// Adds the names of the explicit attributes of an entity.
fn see_explicits<'a>(
    seen: &mut Seen<'a>,
    scope: u32,
    explicits: &[Explicit<'a>],
) -> Result<(), AllocError>
    ensures { OnOk result (Sees seen.old seen.new (flat_map (explicit_in scope) explicits.now)) }
{
    for explicit in explicits {
        see_each_own(seen, scope, explicit.attributes.as_slice())?;
    }
    Ok(())
}

/// Adds the names of the derived attributes of an entity.
fn see_derived<'a>(
    seen: &mut Seen<'a>,
    scope: u32,
    deriveds: &[Derived<'a>],
) -> Result<(), AllocError>
    ensures { OnOk result (Sees seen.old seen.new (flat_map (derived_in scope) deriveds.now)) }
{
    for derived in deriveds {
        see_own(seen, scope, derived.attribute)?;
    }
    Ok(())
}

/// Adds the names of the inverse attributes of an entity.
fn see_inverses<'a>(
    seen: &mut Seen<'a>,
    scope: u32,
    inverses: &[Inverse<'a>],
) -> Result<(), AllocError>
    ensures { OnOk result (Sees seen.old seen.new (flat_map (inverse_in scope) inverses.now)) }
{
    for inverse in inverses {
        see_own(seen, scope, inverse.attribute)?;
    }
    Ok(())
}

/// Adds the names of the attributes of an entity.
fn see_attributes<'a>(
    seen: &mut Seen<'a>,
    scope: u32,
    entity: &Entity<'a>,
) -> Result<(), AllocError>
    ensures { OnOk result
        (Sees seen.old seen.new (in_scope scope (attribute_names (entity_of entity.now)))) }
{
    see_explicits(seen, scope, &entity.explicits)?;
    see_derived(seen, scope, entity.derived_attributes())?;
    see_inverses(seen, scope, entity.inverse_attributes())
}

/// Adds the items of an enumeration. Adds nothing for other types.
fn see_items<'a>(
    seen: &mut Seen<'a>,
    scope: u32,
    underlying: &Underlying<'a>,
) -> Result<(), AllocError>
    ensures { OnOk result
        (Sees seen.old seen.new (in_scope scope
        (enumerated_items (underlying_of underlying.now)))) }
{
    match underlying {
        Underlying::Enumeration(items) => see_words(seen, scope, items),
        Underlying::Select(_) | Underlying::DataType(_) => Ok(()),
    }
}

/// Adds the name of a declaration to the scope of the schema, and the names in it to its own scope.
fn see_declaration<'a>(
    seen: &mut Seen<'a>,
    scope: u32,
    declaration: &Declaration<'a>,
) -> Result<(), AllocError>
    ensures { OnOk result
        (Sees seen.old seen.new (declared_in scope (declaration_seen declaration.now))) }
{
    match declaration {
        Declaration::Type(declared) => {
            see(seen, 0, declared.name)?;
            see_items(seen, scope, &declared.underlying)
        }
        Declaration::Entity(entity) => {
            see(seen, 0, entity.name)?;
            see_attributes(seen, scope, entity)
        }
        Declaration::Skipped(_) => Ok(()),
    }
}

/// Adds all names that a schema declares.
pub(crate) fn see_all<'a>(
    seen: &mut Seen<'a>,
    declarations: &[Declaration<'a>],
) -> Result<(), AllocError>
    requires { length declarations.now < 2 ^ 32 }
    ensures { OnOk result
        (Sees seen.old seen.new (declared_from 1 (map declaration_seen declarations.now))) }
{
    for i in 0..declarations.len() {
        see_declaration(seen, i as u32 + 1, &declarations[i])?;
    }
    Ok(())
}
