//! The domain rules of a schema.

ghost use Rattle.std.specs.Prelude.{◌≡◌, ◌<◌, ◌^◌, ◌∷◌, [], length, map, IfOk, OnOk};
ghost use Rattle.express_syntax.specs.Profile.{Every};
ghost use Rattle.express_syntax.specs.Schemas.{entity as entity_tree, type as type_tree};
ghost use Rattle.express_syntax.specs.Views.{declaration_of, entity_of, type_of};
ghost use Rattle.schema_names.specs.Numbers.{IsAt};
ghost use Rattle.schema_attribute_references.specs.steps.Taking.{schema_in};
ghost use Rattle.schema_unchecked.specs.steps.Findings.{AreFound};
ghost use Rattle.conformance.specs.DomainRules.{AreDomainRules, statements_in};
ghost use Rattle.schema_domain_rules.specs.RuleViews.{rule_seen, IsNumberedRule};
ghost use Rattle.schema_domain_rules.specs.steps.Making.{Adds};

use crate::rule::DomainRule;
use crate::rules::{add_entity_rules, add_type_rules};
use express_syntax::tree::{Declaration, Entity, SchemaTree, TypeDeclaration};
use schema_unchecked::findings::Findings;
use schema_unchecked::list_parts::Holder;
use std::alloc::{AllocError, Global};

/// Adds the checked domain rules of a defined type (ISO 10303-11, 9.1).
fn add_type<'t, 'a>(
    alloc: Global,
    findings: &Findings<'a, '_, '_>,
    rules: &mut Vec<DomainRule<'a, 't>>,
    number: u32,
    declared: &'t TypeDeclaration<'a>,
) -> Result<(), AllocError>
    requires found { AreFound findings.now }
    requires at { IsAt (schema_in findings.now.known) number (type_tree (type_of declared.now)) }
    ensures { OnOk result (Adds (schema_in findings.now.known)
        (statements_in (type_tree (type_of declared.now) ∷ []))
        rules.old.items rules.new.items) }
{
    let name = declared.name;
    let holder = Holder { number, name };
    add_type_rules(alloc, findings, rules, holder, declared.domain_rules())
}

/// Adds the checked domain rules of an entity (ISO 10303-11, 9.2.2.2).
fn add_entity<'t, 'a>(
    alloc: Global,
    findings: &Findings<'a, '_, '_>,
    rules: &mut Vec<DomainRule<'a, 't>>,
    number: u32,
    entity: &'t Entity<'a>,
) -> Result<(), AllocError>
    requires found { AreFound findings.now }
    requires at { IsAt (schema_in findings.now.known) number (entity_tree (entity_of entity.now)) }
    ensures { OnOk result (Adds (schema_in findings.now.known)
        (statements_in (entity_tree (entity_of entity.now) ∷ []))
        rules.old.items rules.new.items) }
{
    let name = entity.name;
    let holder = Holder { number, name };
    add_entity_rules(alloc, findings, rules, holder, entity.domain_rules())
}

/// Adds the checked domain rules of the declaration `number`.
fn add_declaration<'t, 'a>(
    alloc: Global,
    findings: &Findings<'a, '_, '_>,
    rules: &mut Vec<DomainRule<'a, 't>>,
    number: u32,
    declaration: &'t Declaration<'a>,
) -> Result<(), AllocError>
    requires found { AreFound findings.now }
    requires at { IsAt (schema_in findings.now.known) number (declaration_of declaration.now) }
    ensures { OnOk result (Adds (schema_in findings.now.known)
        (statements_in (declaration_of declaration.now ∷ []))
        rules.old.items rules.new.items) }
{
    match declaration {
        Declaration::Type(declared) => add_type(alloc, findings, rules, number, declared),
        Declaration::Entity(entity) => add_entity(alloc, findings, rules, number, entity),
        Declaration::Skipped(_) => Ok(()),
    }
}

/// Adds the checked domain rules of all declarations, in the order of the text.
fn add_all<'t, 'a>(
    alloc: Global,
    findings: &Findings<'a, '_, '_>,
    rules: &mut Vec<DomainRule<'a, 't>>,
    declarations: &'t [Declaration<'a>],
) -> Result<(), AllocError>
    requires found { AreFound findings.now }
    requires few { length declarations.now < 2 ^ 32 }
    requires all { map declaration_of declarations.now
        ≡ (schema_in findings.now.known).declarations }
    ensures { OnOk result (Adds (schema_in findings.now.known)
        (statements_in (schema_in findings.now.known).declarations)
        rules.old.items rules.new.items) }
{
    for i in 0..declarations.len() {
        add_declaration(alloc, findings, rules, i as u32, &declarations[i])?;
    }
    Ok(())
}

/// Returns the domain rules of a schema that are checked, in the order of the text: those without a
/// reason to leave them unchecked (ISO 10303-11, 9.1 and 9.2.2.2).
///
/// Takes the time to find the reasons of all rules.
pub fn domain_rules<'t, 'a>(
    alloc: Global,
    findings: &Findings<'a, 't, '_>,
) -> Result<Vec<DomainRule<'a, 't>>, AllocError>
    requires found { AreFound findings.now }
    ensures checked { IfOk result (λ t. AreDomainRules (schema_in findings.now.known)
        (map (rule_seen (schema_in findings.now.known)) t.items)) }
    ensures numbered { IfOk result (λ t. Every (IsNumberedRule (schema_in findings.now.known))
        t.items) }
{
    let mut rules: Vec<DomainRule<'a, 't>> = Vec::new(alloc);
    let schema: &'t SchemaTree<'a> = findings.known.tables.names.schema;
    add_all(alloc, findings, &mut rules, &schema.declarations)?;
    Ok(rules)
}
