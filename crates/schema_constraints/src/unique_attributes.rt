//! The attributes to which names in uniqueness rules refer (ISO 10303-11, 9.2.2.1).

ghost use Rattle.std.specs.Prelude.{◌≡◌, ◌∷◌, [], IfOk};
ghost use Rattle.express_syntax.specs.ExpressionViews.{capitals};
ghost use Rattle.express_syntax.specs.Clauses.{name_of};
ghost use Rattle.express_syntax.specs.Schemas.{redeclared};
ghost use Rattle.express_syntax.specs.Views.{attribute_of};
ghost use Rattle.schema_semantics.specs.Names.{Name, IsEntity};
ghost use Rattle.schema_names.specs.Numbers.{HasNumber};
ghost use Rattle.schema_attribute_references.specs.steps.Taking.{IsKnown, schema_in};
ghost use Rattle.schema_attribute_references.specs.steps.Named.{AreNumbersOf};
ghost use Rattle.conformance.specs.Rules.{MeansAttribute};

use express_syntax::tree::Attribute;
use schema_attribute_references::schema_facts::Known;
use schema_attribute_references::unique_rule_names::holders;
use std::alloc::{AllocError, Global};
use step_literals::literal::Word;

/// Returns a list of one number.
fn single(alloc: Global, number: u32) -> Result<Vec<u32>, AllocError>
    ensures { IfOk result (λ t. t.items ≡ number ∷ []) }
{
    let mut row = Vec::new(alloc);
    row.push(number)?;
    Ok(row)
}

/// Returns the numbers of the entities that declare an attribute to which `SELF\group.name` refers:
/// the group itself, otherwise each entity from which it inherits one.
fn meant_of_group(
    alloc: Global,
    known: &Known<'_, '_, '_>,
    group: u32,
    name: Word<'_>,
) -> Result<Vec<u32>, AllocError>
    requires known { IsKnown known.now }
    ensures { (e q : Name) → HasNumber (schema_in known.now) q group
        → IfOk result (λ t. AreNumbersOf (schema_in known.now)
        (λ p. MeansAttribute (schema_in known.now) e (redeclared q (capitals name.entry)) p
        (capitals name.entry)) t.items) }
{
    let row = holders(alloc, known, group, name)?;
    if row.contains(&group) {
        return single(alloc, group);
    }
    Ok(row)
}

/// Returns the numbers of the entities that declare an attribute to which `attribute` refers in a
/// rule of `entity`.
pub(crate) fn meant(
    alloc: Global,
    known: &Known<'_, '_, '_>,
    entity: u32,
    attribute: Attribute<'_>,
) -> Result<Vec<u32>, AllocError>
    requires known { IsKnown known.now }
    ensures { (e : Name) → HasNumber (schema_in known.now) e entity
        → IfOk result (λ t. AreNumbersOf (schema_in known.now)
        (λ p. MeansAttribute (schema_in known.now) e (attribute_of attribute.entry) p
        (capitals (name_of attribute.entry))) t.items) }
{
    match attribute {
        Attribute::Unqualified(name) => holders(alloc, known, entity, name),
        Attribute::Redeclared(group, name) => match known.tables.names.find(group) {
            Some(group) => meant_of_group(alloc, known, group, name),
            None => Ok(Vec::new(alloc)),
        },
    }
}
