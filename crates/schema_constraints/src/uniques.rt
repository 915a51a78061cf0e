//! Uniqueness rules (ISO 10303-11, 9.2.2.1).

ghost use Rattle.std.specs.Prelude.{
  ◌≡◌,
  ◌<◌,
  ◌++◌,
  ◌^◌,
  ◌||◌,
  not,
  length,
  map,
  IfOk,
  OnOk,
};
ghost use Rattle.express_syntax.specs.ExpressionViews.{capitals};
ghost use Rattle.express_syntax.specs.Schemas.{Entity as EntityTree, entity as entity_tree};
ghost use Rattle.express_syntax.specs.Views.{attribute_of, declaration_of, unique_of};
ghost use Rattle.express_syntax.specs.Profile.{Every};
ghost use Rattle.schema_semantics.specs.Names.{Name, OneOf, IsEntity};
ghost use Rattle.schema_names.specs.Numbers.{HasNumber, IsAt};
ghost use Rattle.schema_attribute_references.specs.steps.Taking.{schema_in};
ghost use Rattle.schema_redeclarations.specs.steps.Speaking.{at_most_one};
ghost use Rattle.conformance.specs.Rules.{
  NamesPlace,
  IsUniqueRule,
  InTurn,
  statements,
  statements_from,
};
ghost use Rattle.schema_constraints.specs.steps.Sources.{AreSources};
ghost use Rattle.schema_constraints.specs.RuleViews.{unique_seen, IsNumberedUnique};
ghost use Rattle.schema_constraints.specs.steps.Making.{
  Adds,
  of_entity,
  AreEntities,
  IsDeclaredBy,
  ArePlacesOf,
  AddsPlaces,
  statement_of,
  uniques_by,
  IsUnique,
};

use crate::label::{RuleLabel, rule_label};
use crate::places::own_place;
use crate::sources::Sources;
use crate::unique_attributes::meant;
use express_syntax::tree::{Attribute, Declaration, Unique};
use schema_attribute_references::unique_rule_names::{Naming, naming_of_all};
use std::alloc::{AllocError, Global};
use step_literals::literal::Word;

/// A uniqueness rule: no two instances of the entity have one combination of values of these
/// attributes (ISO 10303-11, 9.2.2.1).
#[derive(Drop)]
pub struct UniqueRule<'a> {
    /// The number of the entity that states it.
    pub entity: u32,
    pub label: RuleLabel<'a>,
    /// Whether each of its names refers to one attribute, and that is an explicit one. Other rules
    /// are set aside.
    pub is_checked: bool,
    /// The numbers of the explicit attributes to which its names refer.
    pub places: Vec<u32>,
}

/// Adds `number`, if any.
fn add_number(numbers: &mut Vec<u32>, number: Option<u32>) -> Result<(), AllocError>
    ensures { OnOk result (numbers.new.items ≡ numbers.old.items ++ at_most_one number) }
{
    if let Some(number) = number {
        numbers.push(number)?;
    }
    Ok(())
}

/// Adds the numbers of the explicit attributes `name` that `entities` declare themselves.
fn add_declared(
    sources: &Sources<'_, '_, '_>,
    places: &mut Vec<u32>,
    entities: &[u32],
    name: Word<'_>,
) -> Result<(), AllocError>
    requires sources { AreSources sources.now }
    requires entities { AreEntities (schema_in sources.now.known) entities.now }
    ensures { OnOk result (AddsPlaces (schema_in sources.now.known)
        (IsDeclaredBy (schema_in sources.now.known) (capitals name.entry) entities.now)
        places.old.items places.new.items) }
{
    for entity in entities {
        add_number(places, own_place(sources, *entity, name))?;
    }
    Ok(())
}

/// Adds the numbers of the explicit attributes to which `attribute` refers in a rule of `entity`.
fn add_named(
    alloc: Global,
    sources: &Sources<'_, '_, '_>,
    places: &mut Vec<u32>,
    entity: u32,
    attribute: Attribute<'_>,
) -> Result<(), AllocError>
    requires sources { AreSources sources.now }
    requires entity { (e : Name) × HasNumber (schema_in sources.now.known) e entity
        × IsEntity (schema_in sources.now.known) e }
    ensures { (e : Name) → HasNumber (schema_in sources.now.known) e entity
        → IsEntity (schema_in sources.now.known) e
        → OnOk result (AddsPlaces (schema_in sources.now.known)
        (NamesPlace (schema_in sources.now.known) e (attribute_of attribute.entry))
        places.old.items places.new.items) }
{
    let entities = meant(alloc, &sources.known, entity, attribute)?;
    add_declared(sources, places, &entities, attribute.name())
}

/// Returns the numbers of the explicit attributes to which `attributes` refer in a rule of
/// `entity`. A number may occur repeatedly.
fn places_of(
    alloc: Global,
    sources: &Sources<'_, '_, '_>,
    entity: u32,
    attributes: &[Attribute<'_>],
) -> Result<Vec<u32>, AllocError>
    requires sources { AreSources sources.now }
    requires entity { (e : Name) × HasNumber (schema_in sources.now.known) e entity
        × IsEntity (schema_in sources.now.known) e }
    ensures { (e : Name) → HasNumber (schema_in sources.now.known) e entity
        → IsEntity (schema_in sources.now.known) e
        → IfOk result (λ t. ArePlacesOf (schema_in sources.now.known)
        (λ p. OneOf (λ x. NamesPlace (schema_in sources.now.known) e x p)
        (map attribute_of attributes.now)) t.items) }
{
    let mut places = Vec::new(alloc);
    for attribute in attributes {
        add_named(alloc, sources, &mut places, entity, *attribute)?;
    }
    Ok(places)
}

/// Whether a rule with these findings is checked: each of its names refers to one attribute, and
/// that is an explicit one.
fn is_checked(naming: Naming) -> bool
    ensures { result ≡ not (naming.is_other || naming.is_not_one) }
{
    !(naming.is_other || naming.is_not_one)
}

/// Returns the row of the rule that has this number in its clause.
fn unique_rule<'a>(
    alloc: Global,
    sources: &Sources<'a, '_, '_>,
    entity: u32,
    number: u64,
    unique: &Unique<'a>,
) -> Result<UniqueRule<'a>, AllocError>
    requires sources { AreSources sources.now }
    requires entity { (e : EntityTree) × IsAt (schema_in sources.now.known) entity (entity_tree e) }
    ensures { (e : EntityTree) → IsAt (schema_in sources.now.known) entity (entity_tree e)
        → IfOk result (IsUnique (schema_in sources.now.known)
        (statement_of e.name number (unique_of unique.now))) }
{
    let naming = naming_of_all(alloc, &sources.known, entity, &unique.attributes)?;
    let places = places_of(alloc, sources, entity, &unique.attributes)?;
    Ok(UniqueRule {
        entity,
        label: rule_label(unique.label, number),
        is_checked: is_checked(naming),
        places,
    })
}

/// Adds the uniqueness rules of `entity`.
fn add_uniques<'a>(
    alloc: Global,
    sources: &Sources<'a, '_, '_>,
    rules: &mut Vec<UniqueRule<'a>>,
    entity: u32,
    uniques: &[Unique<'a>],
) -> Result<(), AllocError>
    requires sources { AreSources sources.now }
    requires entity { (e : EntityTree) × IsAt (schema_in sources.now.known) entity (entity_tree e) }
    ensures { OnOk result ((e : EntityTree)
        → IsAt (schema_in sources.now.known) entity (entity_tree e)
        → Adds (IsUnique (schema_in sources.now.known))
        (statements_from e.name 1 (map unique_of uniques.now)) rules.old.items rules.new.items) }
{
    for i in 0..uniques.len() {
        let rule = unique_rule(alloc, sources, entity, i as u64 + 1, &uniques[i])?;
        rules.push(rule)?;
    }
    Ok(())
}

/// Adds the uniqueness rules of the declaration `number`, if it is an entity.
fn add_declaration<'a>(
    alloc: Global,
    sources: &Sources<'a, '_, '_>,
    rules: &mut Vec<UniqueRule<'a>>,
    number: u32,
    declaration: &Declaration<'a>,
) -> Result<(), AllocError>
    requires sources { AreSources sources.now }
    requires at { IsAt (schema_in sources.now.known) number (declaration_of declaration.now) }
    ensures { OnOk result (Adds (IsUnique (schema_in sources.now.known))
        (of_entity uniques_by (declaration_of declaration.now)) rules.old.items
        rules.new.items) }
{
    match declaration {
        Declaration::Entity(entity) => {
            add_uniques(alloc, sources, rules, number, entity.uniqueness_rules())
        }
        _ => Ok(()),
    }
}

/// Adds the uniqueness rules of all declarations, in the order of the text.
fn add_all<'a>(
    alloc: Global,
    sources: &Sources<'a, '_, '_>,
    rules: &mut Vec<UniqueRule<'a>>,
    declarations: &[Declaration<'a>],
) -> Result<(), AllocError>
    requires sources { AreSources sources.now }
    requires few { length declarations.now < 2 ^ 32 }
    requires all { map declaration_of declarations.now
        ≡ (schema_in sources.now.known).declarations }
    ensures { OnOk result (Adds (IsUnique (schema_in sources.now.known))
        (statements (schema_in sources.now.known)) rules.old.items rules.new.items) }
{
    for i in 0..declarations.len() {
        add_declaration(alloc, sources, rules, i as u32, &declarations[i])?;
    }
    Ok(())
}

/// Returns the uniqueness rules of a schema whose names are resolved, in the order of the text
/// (ISO 10303-11, 9.2.2.1).
///
/// For each name in a rule, this takes time proportional to the count of declarations of attributes
/// of this name, plus the count of attributes of the entities that declare them.
pub fn unique_rules<'a>(
    alloc: Global,
    sources: &Sources<'a, '_, '_>,
) -> Result<Vec<UniqueRule<'a>>, AllocError>
    requires sources { AreSources sources.now }
    ensures seen { IfOk result (λ t. InTurn (IsUniqueRule (schema_in sources.now.known))
        (statements (schema_in sources.now.known))
        (map (unique_seen (schema_in sources.now.known)) t.items)) }
    ensures numbered { IfOk result (λ t. Every (IsNumberedUnique (schema_in sources.now.known))
        t.items) }
{
    let mut rules = Vec::new(alloc);
    let declarations = sources.known.tables.names.declarations();
    add_all(alloc, sources, &mut rules, declarations)?;
    Ok(rules)
}
