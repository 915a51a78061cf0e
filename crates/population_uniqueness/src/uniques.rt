//! Instances that violate uniqueness rules (ISO 10303-11, 9.2.2.1).

ghost use Rattle.std.specs.Prelude.{◌≡◌, map, IfOk, OnOk};
ghost use Rattle.conformance.specs.RuleFindings.{unique_findings, breaches_of_unique};
ghost use Rattle.schema_semantics.specs.Names.{Name};
ghost use Rattle.schema_semantics.specs.Parts.{dotted};
ghost use Rattle.schema_names.specs.Schemas.{the_schema};
ghost use Rattle.schema_unchecked_declarations.specs.UncheckedLists.{label_name};
ghost use Rattle.schema_constraints.specs.Findings.{AreFindingsOf};
ghost use Rattle.schema_constraints.specs.declared.finding.RuleFindingKind.TheVariants.{UniqueBroken};
ghost use Rattle.schema_constraints.specs.RuleViews.{rules_seen, unique_seen, IsNumberedUnique, AreNumbered};
ghost use Rattle.typed_populations.specs.PopulationViews.{population_seen};
ghost use Rattle.population_inverses.specs.steps.Findings.{Adds};

use crate::repeats::repeats;
use population_inverses::extents::Extents;
use schema_constraints::finding::{RuleFinding, RuleFindingKind};
use schema_constraints::uniques::UniqueRule;
use schema_unchecked_declarations::list::Label;
use std::alloc::{AllocError, Global};
use std::hash::RandomState;

/// Adds the finding of each instance in `names`, which violates the uniqueness rule `rule`.
fn add_findings<'s>(
    findings: &mut Vec<RuleFinding<'s>>,
    rule: Label<'s>,
    names: &[u64],
) -> Result<(), AllocError>
    ensures { (holder label : Name) → label_name rule.entry ≡ dotted holder label
        → OnOk result (Adds UniqueBroken
        (map (λ y. record { instance = y; holder = holder; label = label }) names.now)
        findings.old.items findings.new.items) }
{
    for name in names {
        findings.push(RuleFinding {
            kind: RuleFindingKind::UniqueBroken,
            instance: *name,
            rule,
        })?;
    }
    Ok(())
}

/// Adds the findings of the instances that violate `rule`, unless the rule is set aside.
fn add_rule<'s>(
    alloc: Global,
    keys: RandomState,
    extents: &Extents<'s, '_, '_, '_, '_>,
    findings: &mut Vec<RuleFinding<'s>>,
    rule: &UniqueRule<'s>,
) -> Result<(), AllocError>
    requires numbered { IsNumberedUnique
        (the_schema extents.now.population.now.types.now.names) rule.now }
    ensures { OnOk result (Adds UniqueBroken
        (breaches_of_unique (population_seen extents.now.population.now)
        (unique_seen (the_schema extents.now.population.now.types.now.names) rule.now))
        findings.old.items findings.new.items) }
{
    if !rule.is_checked {
        return Ok(());
    }
    let names = repeats(alloc, keys, extents.population, rule)?;
    add_findings(findings, extents.label(rule.entity, rule.label), &names)
}

/// Returns the findings of the instances that have the key of an earlier instance, by rule in the
/// order of the text, then in the order of the file (ISO 10303-11, 9.2.2.1).
///
/// The keys of instances are hashed by `keys`. For each rule the time depends on the number of
/// instances and the size of the values that the rule names.
pub fn check_unique<'s>(
    alloc: Global,
    keys: RandomState,
    extents: &Extents<'s, '_, '_, '_, '_>,
) -> Result<Vec<RuleFinding<'s>>, AllocError>
    requires numbered { AreNumbered
        (the_schema extents.now.population.now.types.now.names) extents.now.rules.now }
    ensures { IfOk result (λ t. AreFindingsOf UniqueBroken
        (unique_findings (rules_seen
        (the_schema extents.now.population.now.types.now.names) extents.now.rules.now)
        (population_seen extents.now.population.now)) t.items) }
{
    let mut findings = Vec::new(alloc);
    for rule in &extents.rules.uniques {
        add_rule(alloc, keys, extents, &mut findings, rule)?;
    }
    Ok(findings)
}
