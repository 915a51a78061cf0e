//! The unchecked parts of a declaration (ISO 10303-11, 9).

ghost use Rattle.std.specs.Prelude.{◌≡◌, OnOk};
ghost use Rattle.express_syntax.specs.Schemas.{type as type_tree, entity as entity_tree};
ghost use Rattle.express_syntax.specs.Views.{declaration_of, entity_of, type_of};
ghost use Rattle.schema_semantics.specs.Parts.{parts_of_type, parts_of_entity, parts_of_declaration};
ghost use Rattle.schema_names.specs.Numbers.{IsAt};
ghost use Rattle.schema_attribute_references.specs.steps.Taking.{schema_in};
ghost use Rattle.schema_unchecked_declarations.specs.UncheckedLists.{Adds, unchecked_in};
ghost use Rattle.schema_unchecked.specs.steps.Findings.{AreFound};
ghost use Rattle.schema_unchecked.specs.steps.Listing.{parts_of_constraints};
ghost use Rattle.schema_unchecked.specs.steps.Places.{derivations_before};

use crate::derived_attributes::add_derived_attributes;
use crate::explicit_attributes::add_explicit_attributes;
use crate::findings::Findings;
use crate::list_parts::Holder;
use crate::rules::{add_entity_rules, add_type_rules};
use crate::uniqueness_rules::add_uniques;
use express_syntax::tree::{Declaration, Entity, TypeDeclaration};
use schema_unchecked_declarations::declarations::{add_inverse_clause, add_skipped, add_supertype};
use schema_unchecked_declarations::limits::add_underlying;
use schema_unchecked_declarations::list::{Label, Unchecked};
use std::alloc::{AllocError, Global};

/// Adds the unchecked parts of a defined type (ISO 10303-11, 9.1).
fn add_type<'a>(
    alloc: Global,
    findings: &Findings<'a, '_, '_>,
    list: &mut Vec<Unchecked>,
    number: u32,
    declared: &TypeDeclaration<'a>,
) -> Result<(), AllocError>
    requires found { AreFound findings.now }
    requires at { IsAt (schema_in findings.now.known) number (type_tree (type_of declared.now)) }
    ensures { OnOk result (Adds (parts_of_type (schema_in findings.now.known)
        (type_of declared.now)) (unchecked_in list.old.items) (unchecked_in list.new.items)) }
{
    let name = declared.name;
    add_underlying(alloc, list, Label::Of(name), &declared.underlying)?;
    let holder = Holder { number, name };
    add_type_rules(alloc, findings, list, holder, declared.domain_rules())
}

/// Adds the unchecked uniqueness rules and domain rules of an entity (ISO 10303-11, 9.2.2).
fn add_constraints<'a>(
    alloc: Global,
    findings: &Findings<'a, '_, '_>,
    list: &mut Vec<Unchecked>,
    number: u32,
    entity: &Entity<'a>,
) -> Result<(), AllocError>
    requires found { AreFound findings.now }
    requires at { IsAt (schema_in findings.now.known) number (entity_tree (entity_of entity.now)) }
    ensures { OnOk result (Adds (parts_of_constraints (schema_in findings.now.known)
        (entity_of entity.now)) (unchecked_in list.old.items) (unchecked_in list.new.items)) }
{
    let name = entity.name;
    let holder = Holder { number, name };
    add_uniques(alloc, findings, list, holder, entity.uniqueness_rules())?;
    add_entity_rules(alloc, findings, list, holder, entity.domain_rules())
}

/// Adds the unchecked parts of an entity, whose first derived attribute has the number `first`
/// (ISO 10303-11, 9.2).
fn add_entity<'a>(
    alloc: Global,
    findings: &Findings<'a, '_, '_>,
    list: &mut Vec<Unchecked>,
    number: u32,
    first: u32,
    entity: &Entity<'a>,
) -> Result<(), AllocError>
    requires found { AreFound findings.now }
    requires at { IsAt (schema_in findings.now.known) number (entity_tree (entity_of entity.now)) }
    requires first { first ≡ derivations_before (schema_in findings.now.known) number }
    ensures { OnOk result (Adds (parts_of_entity (schema_in findings.now.known)
        (entity_of entity.now)) (unchecked_in list.old.items) (unchecked_in list.new.items)) }
{
    add_supertype(alloc, list, entity.name, &entity.supertype)?;
    add_explicit_attributes(alloc, findings, list, number, entity)?;
    add_derived_attributes(alloc, findings, list, number, first, entity)?;
    add_inverse_clause(alloc, list, entity)?;
    add_constraints(alloc, findings, list, number, entity)
}

/// Adds the unchecked parts of the declaration `number`. `first` derived attributes precede it in
/// the schema.
pub(crate) fn add_declaration<'a>(
    alloc: Global,
    findings: &Findings<'a, '_, '_>,
    list: &mut Vec<Unchecked>,
    number: u32,
    first: u32,
    declaration: &Declaration<'a>,
) -> Result<(), AllocError>
    requires found { AreFound findings.now }
    requires at { IsAt (schema_in findings.now.known) number (declaration_of declaration.now) }
    requires first { first ≡ derivations_before (schema_in findings.now.known) number }
    ensures { OnOk result (Adds (parts_of_declaration (schema_in findings.now.known)
        (declaration_of declaration.now))
        (unchecked_in list.old.items) (unchecked_in list.new.items)) }
{
    match declaration {
        Declaration::Type(declared) => add_type(alloc, findings, list, number, declared),
        Declaration::Entity(entity) => add_entity(alloc, findings, list, number, first, entity),
        Declaration::Skipped(skipped) => add_skipped(alloc, list, skipped),
    }
}
