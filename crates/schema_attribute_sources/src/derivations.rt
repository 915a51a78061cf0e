//! The derived attributes that give an attribute its value (ISO 10303-11, 9.2.1.2 and 9.2.3.4).

ghost use Rattle.std.specs.Prelude.{◌≡◌, map};
ghost use Rattle.graphs.specs.Graphs.{graph_of, next};
ghost use Rattle.express_syntax.specs.ExpressionViews.{capitals};
ghost use Rattle.express_syntax.specs.Views.{
  attribute_of,
  derived_of,
  declaration_of as declaration_seen,
};
ghost use Rattle.schema_names.specs.Numbers.{number_of};
ghost use Rattle.schema_names.specs.Schemas.{the_schema};
ghost use Rattle.schema_attribute_sources.specs.steps.Deriving.{
  is_entity,
  line_in,
  is_number,
  is_origin,
  gives,
  deriveds_in,
  first_behind,
  first_giving,
  derives,
};

use crate::declaring_entity::first_declaring;
use express_syntax::tree::{Attribute, Declaration, Derived};
use schema_names::names::Names;
use step_literals::literal::Word;

/// The attribute that is looked up: its name, and the number of the entity that declares it.
#[derive(Clone, Copy)]
pub(crate) struct Asked<'n> {
    pub entity: u32,
    pub name: Word<'n>,
}

/// Returns the row with this number, if any, otherwise an empty one.
pub(crate) fn row_of(rows: &[Vec<u32>], number: u32) -> &[u32]
    ensures { result.now ≡ next (graph_of rows.now) number }
{
    match rows.get(number as usize) {
        Some(row) => row,
        None => &[],
    }
}

/// Whether `declaration` is an entity.
fn is_entity(declaration: &Declaration<'_>) -> bool
    ensures { result ≡ is_entity (declaration_seen declaration.now) }
{
    match declaration {
        Declaration::Entity(_) => true,
        _ => false,
    }
}

/// Returns the supertype chain of `entity`. Empty if no entity has this name.
fn line_of<'r>(names: &Names<'_, '_>, lines: &'r [Vec<u32>], entity: Word<'_>) -> &'r [u32]
    ensures { result.now ≡ line_in (the_schema names.now) (graph_of lines.now)
        (number_of (the_schema names.now) (capitals entity.entry)) }
{
    let Some(number) = names.find(entity) else {
        return &[];
    };
    if !is_entity(names.declaration(number)) {
        return &[];
    }
    row_of(lines, number)
}

/// Whether `found` is this number.
fn is_number(found: Option<u32>, number: u32) -> bool
    ensures { result ≡ is_number number found }
{
    match found {
        Some(other) => other == number,
        None => false,
    }
}

/// Whether `SELF\entity.name` refers to the attribute `asked` (ISO 10303-11, 9.2.3.4).
fn is_origin(names: &Names<'_, '_>, lines: &[Vec<u32>], entity: Word<'_>, asked: Asked<'_>) -> bool
    ensures { result ≡ is_origin (the_schema names.now) (graph_of lines.now)
        (capitals asked.entry.name) asked.entry.entity (capitals entity.entry) }
{
    let line = line_of(names, lines, entity);
    is_number(first_declaring(names, line, asked.name), asked.entity)
}

/// Whether `attribute`, in the DERIVE clause of `entity`, gives `asked` its value
/// (ISO 10303-11, 9.2.1.2 and 9.2.3.4).
fn gives(
    names: &Names<'_, '_>,
    lines: &[Vec<u32>],
    entity: u32,
    attribute: Attribute<'_>,
    asked: Asked<'_>,
) -> bool
    ensures { result ≡ gives (the_schema names.now) (graph_of lines.now)
        (capitals asked.entry.name) asked.entry.entity entity (attribute_of attribute.entry) }
{
    match attribute {
        Attribute::Unqualified(own) => own == asked.name && entity == asked.entity,
        Attribute::Redeclared(holder, own) => {
            own == asked.name && is_origin(names, lines, holder, asked)
        }
    }
}

/// Returns the DERIVE clause of an entity. Empty for other declarations.
fn deriveds_in<'d, 'a>(declaration: &'d Declaration<'a>) -> &'d [Derived<'a>]
    ensures { map derived_of result.now ≡ deriveds_in (declaration_seen declaration.now) }
{
    match declaration {
        Declaration::Entity(entity) => entity.derived_attributes(),
        _ => &[],
    }
}

/// Returns the index in the DERIVE clause of `declaration` of the first attribute that gives
/// `asked` its value, if any. `entity` is the number of the declaration.
fn first_behind<'a>(
    names: &Names<'a, '_>,
    lines: &[Vec<u32>],
    entity: u32,
    declaration: &Declaration<'a>,
    asked: Asked<'_>,
) -> Option<usize>
    ensures { result ≡ first_behind (the_schema names.now) (graph_of lines.now)
        (capitals asked.entry.name) asked.entry.entity entity
        (deriveds_in (declaration_seen declaration.now)) }
{
    let deriveds = deriveds_in(declaration);
    for n in 0..deriveds.len() {
        if gives(names, lines, entity, deriveds[n].attribute, asked) {
            return Some(n);
        }
    }
    None
}

/// Returns the index in the DERIVE clause of `entity` of the first attribute that gives `asked` its
/// value, if any.
pub(crate) fn first_giving(
    names: &Names<'_, '_>,
    lines: &[Vec<u32>],
    entity: u32,
    asked: Asked<'_>,
) -> Option<usize>
    ensures { result ≡ first_giving (the_schema names.now) (graph_of lines.now)
        (capitals asked.entry.name) asked.entry.entity entity }
{
    match names.at(entity) {
        Some(declaration) => first_behind(names, lines, entity, declaration, asked),
        None => None,
    }
}

/// Whether `entity` derives the value of `asked`.
pub(crate) fn derives(
    names: &Names<'_, '_>,
    lines: &[Vec<u32>],
    entity: u32,
    asked: Asked<'_>,
) -> bool
    ensures { result ≡ derives (the_schema names.now) (graph_of lines.now)
        (capitals asked.entry.name) asked.entry.entity entity }
{
    first_giving(names, lines, entity, asked).is_some()
}
