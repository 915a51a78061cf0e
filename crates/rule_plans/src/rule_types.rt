//! The defined types for whose values rules are tried.

ghost use Rattle.std.specs.Prelude.{◌≡◌, length, IfOk};
ghost use Rattle.std.specs.List.{list_any};
ghost use Rattle.express_syntax.specs.Profile.{Every};
ghost use Rattle.graphs.specs.Graphs.{graph_of};
ghost use Rattle.schema_semantics.specs.Faults.{IsResolved};
ghost use Rattle.schema_names.specs.Schemas.{the_schema};
ghost use Rattle.schema_domain_rules.specs.RuleViews.{IsNumberedRule};
ghost use Rattle.rule_plans.specs.steps.Renamings.{AreRenamings};
ghost use Rattle.graphs.specs.steps.Telling.{is_under};
ghost use Rattle.rule_plans.specs.steps.Wanted.{
  is_type_rule,
  notes_within,
  notes_holder,
  AreStated,
  IsUnion,
};

use graphs::forest::Forest;
use graphs::marks::spread;
use schema_domain_rules::rule::{DomainRule, RuleHolder};
use schema_names::names::Names;
use std::alloc::{AllocError, Global};

/// Whether `rule` is stated by a defined type.
fn is_type_rule(rule: &DomainRule<'_, '_>) -> bool
    ensures { result ≡ is_type_rule rule.now }
{
    match rule.holder {
        RuleHolder::Entity(_) => false,
        RuleHolder::Type(_) => true,
    }
}

/// Whether one of `rules` is stated by a defined type.
pub fn has_type_rule(rules: &[DomainRule<'_, '_>]) -> bool
    ensures { result ≡ list_any is_type_rule rules.now }
{
    rules.iter().any(|rule| is_type_rule(rule))
}

/// Marks `holder` if it is a defined type.
fn note_holder(stated: &mut Vec<bool>, holder: RuleHolder)
    requires { notes_within holder (length stated.old.items) }
    ensures { stated.new.items ≡ notes_holder holder stated.old.items }
{
    match holder {
        RuleHolder::Entity(_) => {}
        RuleHolder::Type(declared) => stated[declared as usize] = true,
    }
}

/// Returns, for each declaration, whether it is a defined type that states one of `rules`.
fn stated_types(
    alloc: Global,
    names: &Names<'_, '_>,
    rules: &[DomainRule<'_, '_>],
) -> Result<Vec<bool>, AllocError>
    requires numbered { Every (IsNumberedRule (the_schema names.now)) rules.now }
    ensures length { IfOk result (λ v. length v.items
        ≡ length (the_schema names.now).declarations) }
    ensures stated { IfOk result (λ v. AreStated rules.now v.items) }
{
    let mut stated = vec![in alloc; false; names.len()]?;
    for rule in rules {
        note_holder(&mut stated, rule.holder);
    }
    Ok(stated)
}

/// Returns, for each declaration, whether it is a defined type that states one of `rules` or is
/// defined by one that does.
pub(crate) fn union_of(
    alloc: Global,
    names: &Names<'_, '_>,
    edges: &[Vec<u32>],
    rules: &[DomainRule<'_, '_>],
) -> Result<Vec<bool>, AllocError>
    requires resolved { IsResolved (the_schema names.now) }
    requires edges { AreRenamings (the_schema names.now) (graph_of edges.now) }
    requires numbered { Every (IsNumberedRule (the_schema names.now)) rules.now }
    ensures { IfOk result (λ v. IsUnion (the_schema names.now) rules.now v.items) }
{
    let stated = stated_types(alloc, names, rules)?;
    spread(alloc, edges, &stated)
}

/// Whether one of `types` is the defined type `declared` or is defined by it.
pub fn has_one_under(forest: &Forest, types: &[u32], declared: u32) -> bool
    ensures { result ≡ list_any (λ i. is_under forest.now i declared) types.now }
{
    types
        .iter()
        .any(|number| forest.is_under(*number, declared))
}
