//! The references between instances, collected for an inverse attribute (ISO 10303-11, 9.2.1.3).

ghost use Rattle.std.specs.Prelude.{◌≡◌, ℕ, ◌∷◌, [], ◌++◌, min, IfOk, OnOk};
ghost use Rattle.std.specs.List.{repeat};
ghost use Rattle.conformance.specs.Referrers.{holds, times, times_at};
ghost use Rattle.graphs.specs.Referrers.{referrers_of};
ghost use Rattle.schema_names.specs.Schemas.{the_schema};
ghost use Rattle.schema_constraints.specs.RuleViews.{gathering_seen, IsNumberedInverse};
ghost use Rattle.typed_populations.specs.ValueOrder.{picked_at};
ghost use Rattle.typed_populations.specs.PopulationViews.{population_seen};
ghost use Rattle.population_inverses.specs.InverseReferences.{AreHeld};
ghost use Rattle.population_inverses.specs.steps.Targets.{often, references_to};

use crate::positions::{is_somewhere, position_at, positions};
use crate::targets::add_targets;
use graphs::referrers::Reference;
use schema_constraints::inverse_collections::Gathering;
use schema_constraints::inverses::InverseAttribute;
use std::alloc::{AllocError, Global};
use step_values::slot::{Slot, Slots};
use typed_populations::population::Population;

/// Removes repeated names, so that each name occurs once.
fn keep_each_once(names: &mut Vec<u64>)
    ensures { (y : ℕ) → often y names.new.items ≡ min (often y names.old.items) 1 }
{
    names.sort_unstable();
    names.dedup();
}

/// Removes repeated names, unless the inverse attribute is a BAG, which has a referring instance as
/// often as it refers.
fn hold(names: &mut Vec<u64>, gathering: Gathering)
    ensures { (y : ℕ) → often y names.new.items
        ≡ holds (gathering_seen gathering) (often y names.old.items) }
{
    match gathering {
        Gathering::Bag { .. } => {}
        Gathering::Alone | Gathering::Set { .. } => keep_each_once(names),
    }
}

/// Adds a reference from `referrer` to each of `targets`.
fn add_references(
    references: &mut Vec<Reference>,
    targets: &[u64],
    referrer: u64,
) -> Result<(), AllocError>
    ensures { OnOk result (references.new.items
        ≡ references.old.items ++ references_to targets.now referrer) }
{
    for target in targets {
        references.push(Reference {
            target: *target,
            referrer,
        })?;
    }
    Ok(())
}

/// Adds the references of a value of the instance `referrer`, to each target as often as the
/// inverse attribute has the instance. `names` is overwritten, so that its memory is used again.
fn add_value(
    references: &mut Vec<Reference>,
    names: &mut Vec<u64>,
    gathering: Gathering,
    value: &Slot<'_, '_>,
    referrer: u64,
) -> Result<(), AllocError>
    ensures { OnOk result ((y : ℕ) → referrers_of y references.new.items
        ≡ referrers_of y references.old.items
        ++ repeat (holds (gathering_seen gathering) (times y value.now)) (referrer ∷ [])) }
{
    names.clear();
    add_targets(names, value)?;
    hold(names, gathering);
    add_references(references, names, referrer)
}

/// Adds the references of the value at `position`, if any, of the instance `referrer`. `names` is
/// overwritten, so that its memory is used again.
fn add_value_at(
    references: &mut Vec<Reference>,
    names: &mut Vec<u64>,
    gathering: Gathering,
    values: &Slots<'_, '_>,
    position: Option<usize>,
    referrer: u64,
) -> Result<(), AllocError>
    ensures { OnOk result ((y : ℕ) → referrers_of y references.new.items
        ≡ referrers_of y references.old.items
        ++ repeat (holds (gathering_seen gathering) (times_at y (picked_at values.now position)))
        (referrer ∷ [])) }
{
    let Some(position) = position else {
        return Ok(());
    };
    match values.item(position) {
        Some(value) => add_value(references, names, gathering, &value, referrer),
        None => Ok(()),
    }
}

/// Returns the references that `inverse` inverts, by all instances in the order of the file.
pub(crate) fn gathered(
    alloc: Global,
    population: &Population<'_, '_, '_, '_>,
    inverse: &InverseAttribute<'_>,
) -> Result<Vec<Reference>, AllocError>
    requires numbered { IsNumberedInverse (the_schema population.now.types.now.names) inverse.now }
    ensures { IfOk result (λ t. AreHeld (the_schema population.now.types.now.names)
        inverse.now (population_seen population.now) t.items) }
{
    let positions = positions(alloc, inverse, population.forms())?;
    let mut references = Vec::new(alloc);
    if !is_somewhere(&positions) {
        return Ok(references);
    }
    let mut names = Vec::new(alloc);
    for row in 0..population.len() {
        let instance = population.instance(row);
        let position = position_at(&positions, instance.form);
        add_value_at(
            &mut references,
            &mut names,
            inverse.gathering,
            &instance.values,
            position,
            instance.name,
        )?;
    }
    Ok(references)
}
