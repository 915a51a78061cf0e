//! The outcome of a rule at an instance.

ghost use Rattle.std.specs.Prelude.{◌≡◌, ◌<◌, Some, cond, length, slice_get, IfOk};
ghost use Rattle.express_logic.specs.Logic.{both};
ghost use Rattle.graphs.specs.steps.Telling.{is_under};
ghost use Rattle.express_syntax.specs.ExpressionViews.{tree_of};
ghost use Rattle.conformance.specs.Populations.{Instance};
ghost use Rattle.rule_values.specs.Parts.{element_datum};
ghost use Rattle.schema_names.specs.Numbers.{HasNumber};
ghost use Rattle.schema_underlying_types.specs.BaseViews.{name_at};
ghost use Rattle.schema_domain_rules.specs.RuleViews.{IsNumberedRule};
ghost use Rattle.schema_domain_rules.specs.declared.rule.RuleHolder.TheVariants as holders;
ghost use Rattle.rule_settings.specs.Settings.{IsSetting, Meant, schema_in, population_in};
ghost use Rattle.rule_plans.specs.Limits.{IsLimit};
ghost use Rattle.rule_outcomes.specs.Outcomes.{said_of, said_by, outcome_in};
ghost use Rattle.schema_semantics.specs.Names.{Among};
ghost use Rattle.rule_plans.specs.steps.Wanted.{States};
ghost use Rattle.rule_plans.specs.steps.Planning.{IsPlan, Tell};

use crate::evaluator::Evaluator;
use express_logic::logical::{Logical, and};
use graphs::forest::Forest;
use rule_plans::found_values::Typed;
use rule_plans::plan::Plan;
use rule_plans::rule_types::has_one_under;
use rule_plans::values::{is_of_entity, self_values};
use rule_values::element::Element;
use rule_values::operations::truth;
use schema_domain_rules::rule::{DomainRule, RuleHolder};
use std::alloc::{AllocError, Global};

/// Returns the truth of the condition of `rule` with `me` as SELF.
fn said_of<'p, 'e, 'r, 't, 's: 'r, 'a: 'r>(
    alloc: Global,
    evaluator: &Evaluator<'s, 't, 'r, 'a, 'e, 'p>,
    rule: &DomainRule<'s, 't>,
    me: Element<'p, 'r>,
) -> Result<Logical, AllocError>
    requires setting { IsSetting evaluator.now.setting.now }
    requires limit { IsLimit evaluator.now.setting.now.formulas.now evaluator.now.limit }
    ensures { IfOk result (λ p. (m : Meant evaluator.now.setting.now)
        → p ≡ said_of evaluator.now.setting.now m rule.now (element_datum me.entry)) }
{
    let mut value = evaluator.evaluate(alloc, rule.condition, me)?;
    Ok(truth(&mut value))
}

/// Returns the outcome of a rule of `entity` at the instance of `row`, which is called `name`: TRUE
/// if it isn't an instance of the entity.
fn entity_outcome<'p, 'e, 'r, 't, 's: 'r, 'a: 'r>(
    alloc: Global,
    evaluator: &Evaluator<'s, 't, 'r, 'a, 'e, 'p>,
    row: usize,
    name: u64,
    rule: &DomainRule<'s, 't>,
    entity: u32,
) -> Result<Logical, AllocError>
    requires setting { IsSetting evaluator.now.setting.now }
    requires limit { IsLimit evaluator.now.setting.now.formulas.now evaluator.now.limit }
    requires within { row < length (population_in evaluator.now.setting.now) }
    requires numbered { HasNumber (schema_in evaluator.now.setting.now)
        (name_at (schema_in evaluator.now.setting.now) entity) entity }
    ensures { IfOk result (λ p. (m : Meant evaluator.now.setting.now) → (x : Instance)
        → slice_get (population_in evaluator.now.setting.now) row ≡ Some x → name ≡ x.name
        → p ≡ said_by evaluator.now.setting.now m x rule.now (holders.Entity entity)) }
{
    if is_of_entity(evaluator.setting.extents.population, row, entity) {
        return said_of(alloc, evaluator, rule, Element::Instance(name));
    }
    Ok(Logical::True)
}

/// Returns the AND of `outcome` and the truth of a rule of the defined type `declared` for `value`.
/// Returns `outcome` if the rule isn't tried for that value.
fn outcome_with<'p, 'e, 'r, 't, 's: 'r, 'a: 'r>(
    alloc: Global,
    evaluator: &Evaluator<'s, 't, 'r, 'a, 'e, 'p>,
    rule: &DomainRule<'s, 't>,
    renamed: &Forest,
    declared: u32,
    value: Typed<'p, 'r>,
    outcome: Logical,
) -> Result<Logical, AllocError>
    requires setting { IsSetting evaluator.now.setting.now }
    requires limit { IsLimit evaluator.now.setting.now.formulas.now evaluator.now.limit }
    ensures { IfOk result (λ p. (m : Meant evaluator.now.setting.now)
        → p ≡ cond (is_under renamed.now value.entry.number declared)
        (both (said_of evaluator.now.setting.now m rule.now (element_datum value.entry.element))
        outcome)
        outcome) }
{
    if !renamed.is_under(value.number, declared) {
        return Ok(outcome);
    }
    let Typed { element, .. } = value;
    let said = said_of(alloc, evaluator, rule, element)?;
    Ok(and(said, outcome))
}

/// Returns the outcome of a rule of the defined type `declared` at the instance of `row`: the least
/// truth for all values that the rule is tried for, TRUE if there are none. `types` are the types
/// of the values at the instance.
fn type_outcome<'p, 'e, 'r, 't, 's: 'r, 'a: 'r>(
    alloc: Global,
    evaluator: &Evaluator<'s, 't, 'r, 'a, 'e, 'p>,
    row: usize,
    rule: &DomainRule<'s, 't>,
    declared: u32,
    plan: &Plan<'s, 't, '_>,
    types: &[u32],
) -> Result<Logical, AllocError>
    requires setting { IsSetting evaluator.now.setting.now }
    requires limit { IsLimit evaluator.now.setting.now.formulas.now evaluator.now.limit }
    requires within { row < length (population_in evaluator.now.setting.now) }
    requires plan { IsPlan evaluator.now.setting.now plan.now }
    requires numbered { HasNumber (schema_in evaluator.now.setting.now)
        (name_at (schema_in evaluator.now.setting.now) declared) declared }
    requires stated { States plan.now.rules.now declared }
    ensures { IfOk result (λ p. (m : Meant evaluator.now.setting.now) → (x : Instance)
        → slice_get (population_in evaluator.now.setting.now) row ≡ Some x
        → Tell evaluator.now.setting.now m x types.now (holders.Type declared)
        → p ≡ said_by evaluator.now.setting.now m x rule.now (holders.Type declared)) }
{
    if !has_one_under(&plan.renamed, types, declared) {
        return Ok(Logical::True);
    }
    let mut values = self_values(alloc, evaluator.setting, row, &plan.union)?;
    let mut outcome = Logical::True;
    while let Some(value) = values.pop() {
        outcome = outcome_with(
            alloc,
            evaluator,
            rule,
            &plan.renamed,
            declared,
            value,
            outcome,
        )?;
    }
    Ok(outcome)
}

/// Returns the outcome of `rule` at the instance of `row`, which is called `name`: TRUE if the rule
/// has no value of SELF there. `types` are the types of the values at the instance.
pub(crate) fn outcome<'p, 'e, 'r, 't, 's: 'r, 'a: 'r>(
    alloc: Global,
    evaluator: &Evaluator<'s, 't, 'r, 'a, 'e, 'p>,
    row: usize,
    name: u64,
    rule: &DomainRule<'s, 't>,
    plan: &Plan<'s, 't, '_>,
    types: &[u32],
) -> Result<Logical, AllocError>
    requires setting { IsSetting evaluator.now.setting.now }
    requires limit { IsLimit evaluator.now.setting.now.formulas.now evaluator.now.limit }
    requires within { row < length (population_in evaluator.now.setting.now) }
    requires plan { IsPlan evaluator.now.setting.now plan.now }
    requires numbered { IsNumberedRule (schema_in evaluator.now.setting.now) rule.now }
    requires among { Among rule.now plan.now.rules.now }
    ensures { IfOk result (λ p. (m : Meant evaluator.now.setting.now) → (x : Instance)
        → slice_get (population_in evaluator.now.setting.now) row ≡ Some x → name ≡ x.name
        → Tell evaluator.now.setting.now m x types.now rule.now.holder
        → p ≡ outcome_in evaluator.now.setting.now m x rule.now) }
{
    match rule.holder {
        RuleHolder::Entity(entity) => entity_outcome(alloc, evaluator, row, name, rule, entity),
        RuleHolder::Type(declared) => {
            type_outcome(alloc, evaluator, row, rule, declared, plan, types)
        }
    }
}
