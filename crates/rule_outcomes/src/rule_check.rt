//! Checking domain rules.

ghost use Rattle.std.specs.Prelude.{◌≡◌, ◌<◌, Some, length, map, flat_map, slice_get, IfOk, OnOk};
ghost use Rattle.express_syntax.specs.Profile.{Every};
ghost use Rattle.conformance.specs.Populations.{Instance};
ghost use Rattle.schema_constraints.specs.Findings.{AreFindingsOf};
ghost use Rattle.schema_constraints.specs.declared.finding.RuleFindingKind.TheVariants.{WhereFalse};
ghost use Rattle.schema_domain_rules.specs.RuleViews.{rule_seen, IsNumberedRule};
ghost use Rattle.conformance.specs.DomainFindings.{rule_findings, unknown};
ghost use Rattle.rule_settings.specs.Settings.{IsSetting, Meant, schema_in, population_in};
ghost use Rattle.rule_plans.specs.Limits.{IsLimit};
ghost use Rattle.rule_plans.specs.steps.Planning.{IsPlan, TellAll};
ghost use Rattle.rule_outcomes.specs.ReportCounts.{
  capped,
  Counts,
  broken_by,
  open_by,
  broken_at,
  open_at,
  broken_in,
  open_in,
  Has,
};

use crate::evaluator::Evaluator;
use crate::outcome::outcome;
use crate::report::{RuleReport, empty_report};
use express_logic::logical::Logical;
use population_inverses::inverses::row_at;
use rule_plans::plan::{Plan, plan_of, types_at};
use rule_settings::setting::Setting;
use schema_constraints::finding::{RuleFinding, RuleFindingKind};
use schema_domain_rules::rule::{DomainRule, RuleHolder};
use std::alloc::{AllocError, Global};

/// Returns the number of the entity or type that states a rule.
fn holder_number(holder: RuleHolder) -> u32
    ensures { result ≡ Rattle.rule_outcomes.specs.ReportCounts.holder_number holder }
{
    match holder {
        RuleHolder::Entity(number) => number,
        RuleHolder::Type(number) => number,
    }
}

/// Adds the outcome of `rule` at the instance called `name` to `report`.
fn add_outcome<'s>(
    setting: &Setting<'s, '_, '_, '_, '_, '_>,
    report: &mut RuleReport<'s>,
    name: u64,
    rule: &DomainRule<'s, '_>,
    outcome: Logical,
) -> Result<(), AllocError>
    requires numbered { IsNumberedRule (schema_in setting.now) rule.now }
    ensures { OnOk result (Counts (broken_by (schema_in setting.now) name rule.now outcome)
        (length (open_by (schema_in setting.now) rule.now outcome)) report.old report.new) }
{
    match outcome {
        Logical::False => {
            let rule = setting
                .extents
                .label(holder_number(rule.holder), rule.label);
            report.findings.push(RuleFinding {
                kind: RuleFindingKind::WhereFalse,
                instance: name,
                rule,
            })?;
            Ok(())
        }
        Logical::Unknown => {
            report.unknown = report.unknown.saturating_add(1);
            Ok(())
        }
        Logical::True => Ok(()),
    }
}

/// An instance, and the rules that are tried there.
#[derive(Drop)]
struct Tried<'n> {
    pub row: usize,
    pub name: u64,
    /// The numbers of the rules.
    pub numbers: &'n [usize],
    /// The numbers of the defined types of the instance's values.
    pub types: &'n [u32],
}

/// Adds the outcomes of the rules at an instance to `report`.
fn add_instance<'p, 'e, 'r, 't, 's: 'r, 'a: 'r>(
    alloc: Global,
    evaluator: &Evaluator<'s, 't, 'r, 'a, 'e, 'p>,
    report: &mut RuleReport<'s>,
    plan: &Plan<'s, 't, '_>,
    tried: &Tried<'_>,
) -> Result<(), AllocError>
    requires setting { IsSetting evaluator.now.setting.now }
    requires limit { IsLimit evaluator.now.setting.now.formulas.now evaluator.now.limit }
    requires plan { IsPlan evaluator.now.setting.now plan.now }
    requires row { tried.now.row < length (population_in evaluator.now.setting.now) }
    requires within { Every (λ n. n < length plan.now.rules.now) tried.now.numbers.now }
    ensures { OnOk result ((m : Meant evaluator.now.setting.now) → (x : Instance)
        → slice_get (population_in evaluator.now.setting.now) tried.now.row ≡ Some x
        → tried.now.name ≡ x.name
        → TellAll evaluator.now.setting.now m x tried.now.types.now plan.now.rules.now
        → Counts (broken_at evaluator.now.setting.now m x plan.now.rules.now tried.now.numbers.now)
        (length (open_at evaluator.now.setting.now m x plan.now.rules.now tried.now.numbers.now))
        report.old report.new) }
{
    for number in tried.numbers {
        let rule = &plan.rules[*number];
        let outcome = outcome(
            alloc,
            evaluator,
            tried.row,
            tried.name,
            rule,
            plan,
            tried.types,
        )?;
        add_outcome(evaluator.setting, report, tried.name, rule, outcome)?;
    }
    Ok(())
}

/// Returns the report on the rules of `plan` at all instances.
fn planned_report<'p, 'e, 'r, 't, 's: 'r, 'a: 'r>(
    alloc: Global,
    evaluator: &Evaluator<'s, 't, 'r, 'a, 'e, 'p>,
    plan: &Plan<'s, 't, '_>,
) -> Result<RuleReport<'s>, AllocError>
    requires setting { IsSetting evaluator.now.setting.now }
    requires limit { IsLimit evaluator.now.setting.now.formulas.now evaluator.now.limit }
    requires plan { IsPlan evaluator.now.setting.now plan.now }
    ensures { IfOk result (λ r. (m : Meant evaluator.now.setting.now) → Has
        (flat_map (broken_in evaluator.now.setting.now m plan.now.rules.now)
        (population_in evaluator.now.setting.now))
        (length (flat_map (open_in evaluator.now.setting.now m plan.now.rules.now)
        (population_in evaluator.now.setting.now))) r) }
{
    let population = evaluator.setting.extents.population;
    let mut report = RuleReport {
        findings: Vec::new(alloc),
        unknown: 0,
    };
    for row in 0..population.len() {
        let instance = population.instance(row);
        let numbers = row_at(&plan.rows, instance.form);
        let types = types_at(alloc, evaluator.setting, plan, row)?;
        let tried = Tried {
            row,
            name: instance.name,
            numbers,
            types: &types,
        };
        add_instance(alloc, evaluator, &mut report, plan, &tried)?;
    }
    Ok(report)
}

/// Returns the findings of the instances at which domain rules are FALSE, and the number of pairs
/// of an instance and a rule whose outcome is UNKNOWN (ISO 10303-11, 9.1 and 9.2.2.2). The findings
/// are in the order of the file and, for each instance, in the order of the rules in the text.
pub fn check_rules<'p, 'e, 'r, 't, 's: 'r, 'a: 'r>(
    alloc: Global,
    setting: &'p Setting<'s, 't, 'r, 'a, 'e, 'p>,
    rules: &[DomainRule<'s, 't>],
) -> Result<RuleReport<'s>, AllocError>
    requires setting { IsSetting setting.now }
    requires numbered { Every (IsNumberedRule (schema_in setting.now)) rules.now }
    ensures findings { IfOk result (λ r. (m : Meant setting.entry.now) → AreFindingsOf WhereFalse
        (rule_findings (schema_in setting.entry.now) m.said.domain m.said.entities m.said.attributes
        (population_in setting.entry.now) (map (rule_seen (schema_in setting.entry.now)) rules.now))
        r.findings.items) }
    ensures unknown { IfOk result (λ r. (m : Meant setting.entry.now) → r.unknown
        ≡ capped (unknown (schema_in setting.entry.now) m.said.domain m.said.entities
        m.said.attributes
        (population_in setting.entry.now)
        (map (rule_seen (schema_in setting.entry.now)) rules.now))) }
{
    if rules.is_empty() {
        return Ok(empty_report(alloc));
    }
    let evaluator = Evaluator::of(setting);
    let plan = plan_of(alloc, setting, rules)?;
    let report = planned_report(alloc, &evaluator, &plan)?;
    Ok(report)
}
