//! Instances that violate the bounds of inverse attributes (ISO 10303-11, 9.2.1.3).

ghost use Rattle.std.specs.Prelude.{◌≡◌, ◌<◌, length, Some, IfOk, OnOk, slice_get};
ghost use Rattle.express_syntax.specs.Profile.{Every};
ghost use Rattle.conformance.specs.RuleFindings.{may_hold, inverse_findings};
ghost use Rattle.schema_names.specs.Schemas.{the_schema};
ghost use Rattle.schema_constraints.specs.Findings.{IsFindingOf, AreFindingsOf};
ghost use Rattle.schema_constraints.specs.declared.finding.RuleFindingKind.TheVariants.{InverseBound};
ghost use Rattle.schema_constraints.specs.RuleViews.{gathering_seen, rules_seen, AreNumbered};
ghost use Rattle.schema_constraints.specs.declared.inverses.InverseAttribute.{
  InverseAttribute as Attribute,
};
ghost use Rattle.typed_populations.specs.PopulationViews.{population_seen};
ghost use Rattle.population_inverses.specs.steps.Findings.{Adds};
ghost use Rattle.population_uniqueness.specs.steps.Bounds.{breach, keeps, breaches_at};

use parameter_fits::bounds::{has_least, has_most};
use population_inverses::extents::Extents;
use population_inverses::inverses::{numbers_by_form, row_at};
use schema_constraints::finding::{RuleFinding, RuleFindingKind};
use schema_constraints::inverse_collections::Gathering;
use schema_constraints::label::RuleLabel;
use std::alloc::{AllocError, Global};

/// Whether `gathering` allows that an inverse attribute holds `count` instances.
fn may_hold(gathering: Gathering, count: usize) -> bool
    ensures { result ≡ may_hold (gathering_seen gathering) count }
{
    match gathering {
        Gathering::Alone => count == 1,
        Gathering::Set { lower, upper } => has_least(lower, count) && has_most(upper, count),
        Gathering::Bag { lower, upper } => has_least(lower, count) && has_most(upper, count),
    }
}

/// Returns the finding of the instance called `name`, which violates the bounds of the inverse
/// attribute numbered `attribute`.
fn finding<'s>(
    extents: &Extents<'s, '_, '_, '_, '_>,
    name: u64,
    attribute: usize,
) -> RuleFinding<'s>
    requires numbered { AreNumbered
        (the_schema extents.now.population.now.types.now.names) extents.now.rules.now }
    requires within { attribute < length extents.now.rules.now.inverses.items }
    ensures { (i : Attribute)
        → slice_get extents.now.rules.now.inverses.items attribute ≡ Some i
        → IsFindingOf InverseBound
        (breach (the_schema extents.now.population.now.types.now.names) name i) result }
{
    let inverse = &extents.rules.inverses[attribute];
    RuleFinding {
        kind: RuleFindingKind::InverseBound,
        instance: name,
        rule: extents.label(inverse.entity, RuleLabel::Written(inverse.name)),
    }
}

/// Whether the number of instances that the inverse attribute numbered `attribute` holds for the
/// instance called `name` is within bounds. `near` has the hints that `inverse_near` takes and
/// returns, by attribute.
fn keeps(
    extents: &Extents<'_, '_, '_, '_, '_>,
    near: &mut [usize],
    name: u64,
    attribute: usize,
) -> bool
    requires { attribute < length extents.now.rules.now.inverses.items }
    ensures { (i : Attribute)
        → slice_get extents.now.rules.now.inverses.items attribute ≡ Some i
        → result ≡ keeps (the_schema extents.now.population.now.types.now.names)
        (population_seen extents.now.population.now) name i }
{
    let begin = near.get(attribute).copied().unwrap_or(0);
    let (value, next) = extents.inverse_near(name, attribute, begin);
    if let Some(place) = near.get_mut(attribute) {
        *place = next;
    }
    may_hold(extents.rules.inverses[attribute].gathering, value.len())
}

/// Adds the findings of the instance called `name` for the inverse attributes with these numbers.
fn add_broken<'s>(
    extents: &Extents<'s, '_, '_, '_, '_>,
    near: &mut [usize],
    findings: &mut Vec<RuleFinding<'s>>,
    name: u64,
    numbers: &[usize],
) -> Result<(), AllocError>
    requires numbered { AreNumbered
        (the_schema extents.now.population.now.types.now.names) extents.now.rules.now }
    requires within { Every (λ n. n < length extents.now.rules.now.inverses.items) numbers.now }
    ensures { OnOk result (Adds InverseBound (breaches_at
        (the_schema extents.now.population.now.types.now.names)
        (population_seen extents.now.population.now) name extents.now.rules.now.inverses.items
        numbers.now) findings.old.items findings.new.items) }
{
    for number in numbers {
        if !keeps(extents, near, name, *number) {
            findings.push(finding(extents, name, *number))?;
        }
    }
    Ok(())
}

/// Returns the findings of the instances for which an inverse attribute holds too many or too few
/// instances (ISO 10303-11, 9.2.1.3). They are in the order of the file and, for each instance, in
/// the order of the attributes in the text.
pub fn check_inverse<'s>(
    alloc: Global,
    extents: &Extents<'s, '_, '_, '_, '_>,
) -> Result<Vec<RuleFinding<'s>>, AllocError>
    requires numbered { AreNumbered
        (the_schema extents.now.population.now.types.now.names) extents.now.rules.now }
    ensures { IfOk result (λ t. AreFindingsOf InverseBound
        (inverse_findings (rules_seen
        (the_schema extents.now.population.now.types.now.names) extents.now.rules.now)
        (population_seen extents.now.population.now)) t.items) }
{
    let rows = numbers_by_form(alloc, &extents.rules.inverses, extents.population.forms())?;
    let mut near = vec![in alloc; 0; extents.rules.inverses.len()]?;
    let mut findings = Vec::new(alloc);
    for row in 0..extents.population.len() {
        let instance = extents.population.instance(row);
        let numbers = row_at(&rows, instance.form);
        add_broken(extents, &mut near, &mut findings, instance.name, numbers)?;
    }
    Ok(findings)
}
