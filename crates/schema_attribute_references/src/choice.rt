//! The attribute declarations that a reference takes (ISO 10303-11, 12.7.3 and 12.7.4).

ghost use Rattle.std.specs.Prelude.{◌≡◌, not, IfOk};
ghost use Rattle.std.specs.List.{list_any};
ghost use Rattle.graphs.specs.Graphs.{graph_of};
ghost use Rattle.schema_attribute_references.specs.steps.Choosing.{
  is_of_any,
  of_entities,
  has_another,
  first_of,
  has_two,
  is_unclear,
  is_of,
  only_owner,
  owner,
  owner_of,
  is_owned,
  of_owner,
};
ghost use Rattle.schema_attribute_references.specs.steps.Gathering.{is_any};

use schema_attributes::declaration::AttributeDeclaration;
use schema_explicit_attributes::supertypes::is_or_leads;
use std::alloc::{AllocError, Global};

/// Whether one of `entities` declares or inherits the attribute.
fn is_of_any(above: &[Vec<u32>], entities: &[u32], declaration: AttributeDeclaration) -> bool
    ensures { result ≡ is_of_any (graph_of above.now) entities.now declaration }
{
    entities
        .iter()
        .any(|entity| is_or_leads(above, *entity, declaration.entity))
}

/// Returns the attributes that one of `entities` declares or inherits.
pub(crate) fn of_entities(
    alloc: Global,
    above: &[Vec<u32>],
    entities: &[u32],
    declarations: &[AttributeDeclaration],
) -> Result<Vec<AttributeDeclaration>, AllocError>
    ensures { IfOk result (λ v. v.items
        ≡ of_entities (graph_of above.now) entities.now declarations.now) }
{
    let mut chosen = Vec::new(alloc);
    for declaration in declarations {
        if is_of_any(above, entities, *declaration) {
            chosen.push(*declaration)?;
        }
    }
    Ok(chosen)
}

/// Returns the first of the attributes that `entity` declares or inherits, if any.
fn first_of(
    above: &[Vec<u32>],
    declarations: &[AttributeDeclaration],
    entity: u32,
) -> Option<AttributeDeclaration>
    ensures { result ≡ first_of (graph_of above.now) declarations.now entity }
{
    declarations
        .iter()
        .find(|each| is_or_leads(above, entity, each.entity))
        .copied()
}

/// Whether `entity` has one of the attributes from another entity than `first`.
fn has_another(
    above: &[Vec<u32>],
    declarations: &[AttributeDeclaration],
    entity: u32,
    first: u32,
) -> bool
    ensures { result ≡ has_another (graph_of above.now) declarations.now entity first }
{
    declarations.iter().any(|each| each.entity != first && is_or_leads(above, entity, each.entity))
}

/// Whether `entity` has attributes of the list from two entities.
fn has_two(above: &[Vec<u32>], declarations: &[AttributeDeclaration], entity: u32) -> bool
    ensures { result ≡ has_two (graph_of above.now) declarations.now entity }
{
    match first_of(above, declarations, entity) {
        Some(first) => has_another(above, declarations, entity, first.entity),
        None => false,
    }
}

/// Whether one of `entities` has attributes of the list from two entities.
fn any_has_two(above: &[Vec<u32>], entities: &[u32], declarations: &[AttributeDeclaration]) -> bool
    ensures { result ≡ list_any (has_two (graph_of above.now) declarations.now) entities.now }
{
    entities
        .iter()
        .any(|entity| has_two(above, declarations, *entity))
}

/// Whether no attribute is taken, or one of `entities` has taken attributes from two entities.
pub(crate) fn is_unclear(
    above: &[Vec<u32>],
    entities: &[u32],
    taken: &[AttributeDeclaration],
) -> bool
    ensures { result ≡ is_unclear (graph_of above.now) entities.now taken.now }
{
    match taken {
        [] => true,
        [_] => false,
        _ => any_has_two(above, entities, taken),
    }
}

/// Whether no attribute is taken.
pub(crate) fn is_none(taken: &[AttributeDeclaration]) -> bool
    ensures { result ≡ not (is_any taken.now) }
{
    taken.is_empty()
}

/// Whether `entity` declares one of the attributes.
fn declares(declarations: &[AttributeDeclaration], entity: u32) -> bool
    ensures { result ≡ list_any (is_of entity) declarations.now }
{
    declarations.iter().any(|each| each.entity == entity)
}

/// Returns the entity that declares the attributes of the list which `entity` has, if it is only
/// one.
fn only_owner(above: &[Vec<u32>], declarations: &[AttributeDeclaration], entity: u32) -> Option<u32>
    ensures { result ≡ only_owner (graph_of above.now) declarations.now entity }
{
    let first = first_of(above, declarations, entity)?;
    if has_another(above, declarations, entity, first.entity) {
        None
    } else {
        Some(first.entity)
    }
}

/// Returns `entity` if it declares one of the attributes, otherwise the only entity from which it
/// inherits some, if there is only one.
fn owner(above: &[Vec<u32>], declarations: &[AttributeDeclaration], entity: u32) -> Option<u32>
    ensures { result ≡ owner (graph_of above.now) declarations.now entity }
{
    if declares(declarations, entity) {
        Some(entity)
    } else {
        only_owner(above, declarations, entity)
    }
}

/// Returns the entity whose attributes are taken for the entity `meant`, if any.
pub(crate) fn owner_of(
    above: &[Vec<u32>],
    declarations: &[AttributeDeclaration],
    meant: Option<u32>,
) -> Option<u32>
    ensures { result ≡ owner_of (graph_of above.now) declarations.now meant }
{
    match meant {
        Some(entity) => owner(above, declarations, entity),
        None => None,
    }
}

/// Whether `owner` is the entity that declares the attribute.
fn is_owned(owner: Option<u32>, declaration: AttributeDeclaration) -> bool
    ensures { result ≡ is_owned owner declaration }
{
    match owner {
        Some(entity) => declaration.entity == entity,
        None => false,
    }
}

/// Returns the attributes that `owner` declares.
pub(crate) fn of_owner(
    alloc: Global,
    owner: Option<u32>,
    declarations: &[AttributeDeclaration],
) -> Result<Vec<AttributeDeclaration>, AllocError>
    ensures { IfOk result (λ v. v.items ≡ of_owner owner declarations.now) }
{
    let mut chosen = Vec::new(alloc);
    for declaration in declarations {
        if is_owned(owner, *declaration) {
            chosen.push(*declaration)?;
        }
    }
    Ok(chosen)
}
