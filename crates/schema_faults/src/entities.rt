//! The names in the attributes of entities (ISO 10303-11, 9.2).
//!
//! Each `check_` function fails with the first name that doesn't refer to what its context
//! requires.

ghost use Rattle.std.specs.Prelude.{flat_map, map};
ghost use Rattle.graphs.specs.Graphs.{graph_of};
ghost use Rattle.express_syntax.specs.Views.{
  names_of,
  attribute_of,
  explicit_of,
  derived_of,
  entity_of,
};
ghost use Rattle.schema_semantics.specs.Faults.{
  demands_of_attribute,
  demands_of_explicit,
  demands_of_derived,
  demands_of_entity,
};
ghost use Rattle.schema_names.specs.Schemas.{the_schema};
ghost use Rattle.schema_faults.specs.steps.Checks.{Checks};
ghost use Rattle.schema_explicit_attributes.specs.Supertypes.{AreAbove};
ghost use Rattle.schema_faults.specs.steps.Clauses.{
  of_subtype_clause,
  of_explicit_clauses,
  of_derive_clause,
  of_inverse_clause,
};

use crate::inverses::check_inverses;
use crate::kinds::is_inherited;
use crate::names::{check_entities, check_entity};
use crate::types::{check_data_type, check_supertype};
use express_syntax::tree::{Attribute, Derived, Entity, Explicit};
use schema_names::names::Names;
use step_literals::literal::Word;

/// Checks a redeclared attribute of an entity with these supertypes (ISO 10303-11, 9.2.3.4).
fn check_attribute<'a>(
    names: &Names<'a, '_>,
    above: &[Vec<u32>],
    supertypes: &[Word<'a>],
    attribute: &Attribute<'a>,
) -> Result<(), Word<'a>>
    requires { AreAbove (the_schema names.now) (graph_of above.now) }
    ensures { Checks (the_schema names.now)
        (demands_of_attribute (names_of supertypes.now) (attribute_of attribute.now)) result }
{
    let Attribute::Redeclared(entity, name) = *attribute else {
        return Ok(());
    };
    check_entity(names, entity)?;
    if is_inherited(names, above, supertypes, entity, name) {
        Ok(())
    } else {
        Err(name)
    }
}

fn check_attributes<'a>(
    names: &Names<'a, '_>,
    above: &[Vec<u32>],
    supertypes: &[Word<'a>],
    attributes: &[Attribute<'a>],
) -> Result<(), Word<'a>>
    requires { AreAbove (the_schema names.now) (graph_of above.now) }
    ensures { Checks (the_schema names.now)
        (flat_map (demands_of_attribute (names_of supertypes.now))
        (map attribute_of attributes.now)) result }
{
    for attribute in attributes {
        check_attribute(names, above, supertypes, attribute)?;
    }
    Ok(())
}

/// Checks explicit attributes and their data type (ISO 10303-11, 9.2.1.1).
fn check_explicit<'a>(
    names: &Names<'a, '_>,
    above: &[Vec<u32>],
    supertypes: &[Word<'a>],
    explicit: &Explicit<'a>,
) -> Result<(), Word<'a>>
    requires { AreAbove (the_schema names.now) (graph_of above.now) }
    ensures { Checks (the_schema names.now)
        (demands_of_explicit (names_of supertypes.now) (explicit_of explicit.now)) result }
{
    check_attributes(names, above, supertypes, explicit.attributes.as_slice())?;
    check_data_type(names, &explicit.data_type)
}

fn check_explicits<'a>(
    names: &Names<'a, '_>,
    above: &[Vec<u32>],
    supertypes: &[Word<'a>],
    explicits: &[Explicit<'a>],
) -> Result<(), Word<'a>>
    requires { AreAbove (the_schema names.now) (graph_of above.now) }
    ensures { Checks (the_schema names.now)
        (flat_map (demands_of_explicit (names_of supertypes.now))
        (map explicit_of explicits.now)) result }
{
    for explicit in explicits {
        check_explicit(names, above, supertypes, explicit)?;
    }
    Ok(())
}

/// Checks a derived attribute and its data type (ISO 10303-11, 9.2.1.2).
fn check_derived<'a>(
    names: &Names<'a, '_>,
    above: &[Vec<u32>],
    supertypes: &[Word<'a>],
    derived: &Derived<'a>,
) -> Result<(), Word<'a>>
    requires { AreAbove (the_schema names.now) (graph_of above.now) }
    ensures { Checks (the_schema names.now)
        (demands_of_derived (names_of supertypes.now) (derived_of derived.now)) result }
{
    check_attribute(names, above, supertypes, &derived.attribute)?;
    check_data_type(names, &derived.data_type)
}

fn check_deriveds<'a>(
    names: &Names<'a, '_>,
    above: &[Vec<u32>],
    supertypes: &[Word<'a>],
    deriveds: &[Derived<'a>],
) -> Result<(), Word<'a>>
    requires { AreAbove (the_schema names.now) (graph_of above.now) }
    ensures { Checks (the_schema names.now) (flat_map (demands_of_derived (names_of supertypes.now))
        (map derived_of deriveds.now)) result }
{
    for derived in deriveds {
        check_derived(names, above, supertypes, derived)?;
    }
    Ok(())
}

/// Checks the names in SUBTYPE OF (ISO 10303-11, 9.2.3).
fn check_subtype_clause<'a>(names: &Names<'a, '_>, entity: &Entity<'a>) -> Result<(), Word<'a>>
    ensures { Checks (the_schema names.now) (of_subtype_clause (entity_of entity.now)) result }
{
    check_entities(names, entity.supertypes())
}

/// Checks the explicit attributes of an entity (ISO 10303-11, 9.2.1.1).
fn check_explicit_clauses<'a>(
    names: &Names<'a, '_>,
    above: &[Vec<u32>],
    entity: &Entity<'a>,
) -> Result<(), Word<'a>>
    requires { AreAbove (the_schema names.now) (graph_of above.now) }
    ensures { Checks (the_schema names.now) (of_explicit_clauses (entity_of entity.now)) result }
{
    check_explicits(names, above, entity.supertypes(), &entity.explicits)
}

/// Checks the derived attributes of an entity (ISO 10303-11, 9.2.1.2).
fn check_derive_clause<'a>(
    names: &Names<'a, '_>,
    above: &[Vec<u32>],
    entity: &Entity<'a>,
) -> Result<(), Word<'a>>
    requires { AreAbove (the_schema names.now) (graph_of above.now) }
    ensures { Checks (the_schema names.now) (of_derive_clause (entity_of entity.now)) result }
{
    check_deriveds(
        names,
        above,
        entity.supertypes(),
        entity.derived_attributes(),
    )
}

/// Checks the inverse attributes of an entity (ISO 10303-11, 9.2.1.3).
fn check_inverse_clause<'a>(
    names: &Names<'a, '_>,
    above: &[Vec<u32>],
    entity: &Entity<'a>,
) -> Result<(), Word<'a>>
    requires { AreAbove (the_schema names.now) (graph_of above.now) }
    ensures { Checks (the_schema names.now) (of_inverse_clause (entity_of entity.now)) result }
{
    check_inverses(names, above, entity.inverse_attributes())
}

/// Checks the names in an entity (ISO 10303-11, 9.2).
pub(crate) fn check_entity_declaration<'a>(
    names: &Names<'a, '_>,
    above: &[Vec<u32>],
    entity: &Entity<'a>,
) -> Result<(), Word<'a>>
    requires { AreAbove (the_schema names.now) (graph_of above.now) }
    ensures { Checks (the_schema names.now) (demands_of_entity (entity_of entity.now)) result }
{
    check_supertype(names, &entity.supertype)?;
    check_subtype_clause(names, entity)?;
    check_explicit_clauses(names, above, entity)?;
    check_derive_clause(names, above, entity)?;
    check_inverse_clause(names, above, entity)
}
