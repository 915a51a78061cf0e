//! The attributes that a uniqueness rule names (ISO 10303-11, 9.2.2.1).

ghost use Rattle.std.specs.Prelude.{◌≡◌, ◌∷◌, ◌++◌, [], Some, IfOk, OnOk, map};
ghost use Rattle.std.specs.List.{list_any, filter};
ghost use Rattle.graphs.specs.Graphs.{graph_of};
ghost use Rattle.express_syntax.specs.ExpressionViews.{capitals};
ghost use Rattle.express_syntax.specs.Schemas.{redeclared};
ghost use Rattle.express_syntax.specs.Clauses.{name_of};
ghost use Rattle.express_syntax.specs.Views.{attribute_of};
ghost use Rattle.schema_semantics.specs.Names.{Name, IsEntity};
ghost use Rattle.schema_semantics.specs.Parts.{NamesAttribute};
ghost use Rattle.schema_names.specs.Numbers.{HasNumber};
ghost use Rattle.schema_names.specs.Schemas.{the_schema};
ghost use Rattle.schema_explicit_attributes.specs.declared.own_attributes.Meant.TheVariants.{Explicit};
ghost use Rattle.schema_explicit_attributes.specs.Supertypes.{is_or_leads};
ghost use Rattle.schema_explicit_attributes.specs.steps.Owned.{declares_at};
ghost use Rattle.schema_attribute_references.specs.steps.Taking.{IsKnown, schema_in};
ghost use Rattle.schema_attribute_references.specs.steps.Named.{
  AreNumbersOf,
  AreHolders,
  is_one,
  is_other_at,
};
ghost use Rattle.schema_attribute_references.specs.steps.Naming.{IsNaming, both};

use crate::schema_facts::Known;
use express_syntax::tree::Attribute;
use schema_attributes::declaration::AttributeDeclaration;
use schema_explicit_attributes::own_attributes::{Meant, declares_at};
use schema_explicit_attributes::supertypes::is_or_leads;
use schema_names::names::Names;
use std::alloc::{AllocError, Global};
use step_literals::literal::Word;

/// The findings for the attributes of a uniqueness rule.
#[derive(Clone, Copy)]
pub struct Naming {
    /// Whether one of the attributes is derived or inverse.
    pub is_other: bool,
    /// Whether one of the names refers to no attribute, or to several.
    pub is_not_one: bool,
}

/// Adds `upper` if it is `lower` or one of its supertypes.
fn add_above(
    row: &mut Vec<u32>,
    above: &[Vec<u32>],
    lower: u32,
    upper: u32,
) -> Result<(), AllocError>
    ensures { OnOk result (row.new.items ≡ row.old.items
        ++ filter (is_or_leads (graph_of above.now) (Some lower)) (upper ∷ [])) }
{
    if !is_or_leads(above, lower, upper) {
        return Ok(());
    }
    row.push(upper)?;
    Ok(())
}

/// Returns the entities of `declarations` that are `lower` or one of its supertypes.
fn entities_above(
    alloc: Global,
    above: &[Vec<u32>],
    lower: u32,
    declarations: &[AttributeDeclaration],
) -> Result<Vec<u32>, AllocError>
    ensures { IfOk result (λ t. t.items ≡ filter (is_or_leads (graph_of above.now) (Some lower))
        (map (λ x. x.entity) declarations.now)) }
{
    let mut row = Vec::new(alloc);
    for declaration in declarations {
        add_above(&mut row, above, lower, declaration.entity)?;
    }
    Ok(row)
}

/// Returns the numbers of the entities that declare an attribute `name` which `entity` declares or
/// inherits (ISO 10303-11, 9.2.3.3).
pub fn holders(
    alloc: Global,
    known: &Known<'_, '_, '_>,
    entity: u32,
    name: Word<'_>,
) -> Result<Vec<u32>, AllocError>
    requires known { IsKnown known.now }
    ensures { (e : Name) → HasNumber (schema_in known.now) e entity
        → IfOk result (λ t. AreHolders (schema_in known.now) e (capitals name.entry)
        t.items) }
{
    entities_above(alloc, known.above, entity, known.attributes.find(name))
}

/// Returns a list of one number.
fn single(alloc: Global, number: u32) -> Result<Vec<u32>, AllocError>
    ensures { IfOk result (λ t. t.items ≡ number ∷ []) }
{
    let mut row = Vec::new(alloc);
    row.push(number)?;
    Ok(row)
}

/// Whether all numbers of `row` are equal, and there is at least one.
fn is_one(row: &[u32]) -> bool
    ensures { result ≡ is_one row.now }
{
    match row.first() {
        Some(first) => row.iter().all(|number| *number == *first),
        None => false,
    }
}

/// Returns the number of the entity that declares the attribute which `SELF\group.name` takes: the
/// group's own, otherwise the only one that it inherits. Empty if `entity` is neither the group nor
/// a subtype of it (ISO 10303-11, 12.7.4).
fn taken_of_group(
    alloc: Global,
    known: &Known<'_, '_, '_>,
    entity: u32,
    group: u32,
    name: Word<'_>,
) -> Result<Vec<u32>, AllocError>
    requires known { IsKnown known.now }
    ensures { (e q : Name) → HasNumber (schema_in known.now) e entity
        → HasNumber (schema_in known.now) q group
        → IsEntity (schema_in known.now) e
        → IfOk result (λ t. AreNumbersOf (schema_in known.now)
        (λ p. NamesAttribute (schema_in known.now) e (redeclared q (capitals name.entry)) p
        (capitals name.entry)) t.items) }
{
    if !is_or_leads(known.above, entity, group) {
        return Ok(Vec::new(alloc));
    }
    let row = holders(alloc, known, group, name)?;
    if row.contains(&group) {
        return single(alloc, group);
    }
    if is_one(&row) {
        return Ok(row);
    }
    Ok(Vec::new(alloc))
}

/// Returns the numbers of the entities that declare an attribute which `attribute` names in a rule
/// of `entity`.
fn named(
    alloc: Global,
    known: &Known<'_, '_, '_>,
    entity: u32,
    attribute: Attribute<'_>,
) -> Result<Vec<u32>, AllocError>
    requires known { IsKnown known.now }
    ensures { (e : Name) → HasNumber (schema_in known.now) e entity
        → IsEntity (schema_in known.now) e
        → IfOk result (λ t. AreNumbersOf (schema_in known.now)
        (λ p. NamesAttribute (schema_in known.now) e (attribute_of attribute.entry) p
        (capitals (name_of attribute.entry))) t.items) }
{
    match attribute {
        Attribute::Unqualified(name) => holders(alloc, known, entity, name),
        Attribute::Redeclared(group, name) => match known.tables.names.find(group) {
            Some(group) => taken_of_group(alloc, known, entity, group, name),
            None => Ok(Vec::new(alloc)),
        },
    }
}

/// Whether one of the entities in `row` declares no explicit attribute `name`.
fn any_other(names: &Names<'_, '_>, row: &[u32], name: Word<'_>) -> bool
    ensures { result ≡ list_any (is_other_at (the_schema names.now) (capitals name.entry)) row.now }
{
    for number in row {
        if !declares_at(names, *number, Meant::Explicit, name) {
            return true;
        }
    }
    false
}

/// Returns the findings for one attribute in a uniqueness rule of `entity`.
fn naming_of(
    alloc: Global,
    known: &Known<'_, '_, '_>,
    entity: u32,
    attribute: Attribute<'_>,
) -> Result<Naming, AllocError>
    requires known { IsKnown known.now }
    ensures { (e : Name) → HasNumber (schema_in known.now) e entity
        → IsEntity (schema_in known.now) e
        → IfOk result (IsNaming (schema_in known.now) e
        (attribute_of attribute.entry ∷ [])) }
{
    let row = named(alloc, known, entity, attribute)?;
    Ok(Naming {
        is_other: any_other(known.tables.names, &row, attribute.name()),
        is_not_one: !is_one(&row),
    })
}

/// Returns the union of two findings.
fn both(first: Naming, second: Naming) -> Naming
    ensures { result ≡ both first second }
{
    Naming {
        is_other: first.is_other || second.is_other,
        is_not_one: first.is_not_one || second.is_not_one,
    }
}

/// Returns the findings for `attributes` in a uniqueness rule of `entity`.
pub fn naming_of_all(
    alloc: Global,
    known: &Known<'_, '_, '_>,
    entity: u32,
    attributes: &[Attribute<'_>],
) -> Result<Naming, AllocError>
    requires known { IsKnown known.now }
    ensures { (e : Name) → HasNumber (schema_in known.now) e entity
        → IsEntity (schema_in known.now) e
        → IfOk result (IsNaming (schema_in known.now) e (map attribute_of attributes.now)) }
{
    let mut found = Naming {
        is_other: false,
        is_not_one: false,
    };
    for attribute in attributes {
        let next = naming_of(alloc, known, entity, *attribute)?;
        found = both(found, next);
    }
    Ok(found)
}
