//! Tables that are built once to try rules at the instances of a population.

ghost use Rattle.std.specs.Prelude.{◌≡◌, ◌<◌, true, Some, length, slice_get, IfOk};
ghost use Rattle.express_syntax.specs.Profile.{Every};
ghost use Rattle.conformance.specs.Populations.{Instance};
ghost use Rattle.schema_domain_rules.specs.RuleViews.{IsNumberedRule};
ghost use Rattle.rule_settings.specs.Settings.{IsSetting, Meant, schema_in, population_in};
ghost use Rattle.rule_plans.specs.steps.Unsought.{AreTables};
ghost use Rattle.rule_plans.specs.steps.Planning.{IsPlan, TellAll};

use crate::applicable_rules::numbers_by_form;
use crate::renamings::{forest_of, renamings};
use crate::rule_types::{has_type_rule, union_of};
use crate::skipped_attributes::{Unsought, unsought_by_form};
use crate::values::value_types;
use graphs::forest::Forest;
use rule_settings::setting::Setting;
use schema_domain_rules::rule::DomainRule;
use std::alloc::{AllocError, Global};

/// The rules that are tried, and where.
#[derive(Drop)]
pub struct Plan<'s, 't, 'n> {
    pub rules: &'n [DomainRule<'s, 't>],
    /// For each form, the numbers of the rules that may have a value of SELF at its instances.
    pub rows: Vec<Vec<usize>>,
    /// Which defined types are defined by which.
    pub renamed: Forest,
    /// For each declaration, whether a rule is tried for the values of that defined type.
    pub union: Vec<bool>,
    /// Whether a defined type states one of the rules.
    pub seeks: bool,
    /// Where there can't be values for which the rule of a defined type is tried; empty if no
    /// defined type states a rule.
    pub unsought: Unsought,
}

/// Returns where there can't be values of `wanted` types; empty tables if `seeks` is false.
fn unsought_where(
    alloc: Global,
    setting: &Setting<'_, '_, '_, '_, '_, '_>,
    wanted: &[bool],
    seeks: bool,
) -> Result<Unsought, AllocError>
    requires { IsSetting setting.now }
    ensures { IfOk result (λ t. seeks ≡ true → AreTables setting.now wanted.now t) }
{
    if seeks {
        return unsought_by_form(alloc, setting, wanted);
    }
    Ok(Unsought {
        attributes: Vec::new(alloc),
        forms: Vec::new(alloc),
    })
}

/// Builds the plan of `rules`.
pub fn plan_of<'n, 't, 's>(
    alloc: Global,
    setting: &Setting<'s, 't, '_, '_, '_, '_>,
    rules: &'n [DomainRule<'s, 't>],
) -> Result<Plan<'s, 't, 'n>, AllocError>
    requires setting { IsSetting setting.now }
    requires numbered { Every (IsNumberedRule (schema_in setting.now)) rules.now }
    ensures plan { IfOk result (IsPlan setting.now) }
    ensures rules { IfOk result (λ p. p.rules.now ≡ rules.now) }
{
    let population = setting.extents.population;
    let names = &population.types.names;
    let edges = renamings(alloc, names)?;
    let renamed = forest_of(alloc, names, &edges)?;
    let union = union_of(alloc, names, &edges, rules)?;
    let rows = numbers_by_form(alloc, rules, population.forms())?;
    let seeks = has_type_rule(rules);
    let unsought = unsought_where(alloc, setting, &union, seeks)?;
    Ok(Plan {
        rules,
        rows,
        renamed,
        union,
        seeks,
        unsought,
    })
}

/// Returns the numbers of the defined types of the values at the instance of `row` for which rules
/// are tried.
pub fn types_at<'p, 'e, 'r, 't, 's: 'r, 'a: 'r>(
    alloc: Global,
    setting: &Setting<'s, 't, 'r, 'a, 'e, 'p>,
    plan: &Plan<'_, '_, '_>,
    row: usize,
) -> Result<Vec<u32>, AllocError>
    requires setting { IsSetting setting.now }
    requires within { row < length (population_in setting.now) }
    requires plan { IsPlan setting.now plan.now }
    ensures { IfOk result (λ v. (m : Meant setting.now) → (x : Instance)
        → slice_get (population_in setting.now) row ≡ Some x
        → TellAll setting.now m x v.items plan.now.rules.now) }
{
    if plan.seeks {
        return value_types(alloc, setting, row, &plan.union, &plan.unsought);
    }
    Ok(Vec::new(alloc))
}
