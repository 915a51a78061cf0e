//! Pinning what forms, uniqueness rules, SETs and BAGs pin, instance by instance.

ghost use Rattle.std.specs.Prelude.{OnOk};
ghost use Rattle.express_syntax.specs.Schemas.{Schema};
ghost use Rattle.schema_semantics.specs.Names.{OneOf};
ghost use Rattle.schema_names.specs.Schemas.{the_schema};
ghost use Rattle.schema_types.specs.TypeTables.{IsMade};
ghost use Rattle.merge_choices.specs.ChosenEntities.{AreChosen};
ghost use Rattle.conformance.specs.Choices.{MergeOptions};
ghost use Rattle.conformance.specs.Entities.{Entities, AreEntities};
ghost use Rattle.conformance.specs.CollectionMembers.{InBag};
ghost use Rattle.conformance.specs.Pins.{OccursAt};
ghost use Rattle.schema_constraints.specs.RuleViews.{AreNumbered, rules_seen};
ghost use Rattle.typed_populations.specs.Rows.{slots_seen};
ghost use Rattle.typed_populations.specs.PopulationViews.{population_seen};
ghost use Rattle.step_values.specs.steps.Slots.{nth};
ghost use Rattle.population_pins.specs.steps.Pinning.{Pins};
ghost use Rattle.population_pins.specs.steps.Rows.{PinsByForm, PinnedAt, PinnedBy, PinnedAmong};

use crate::bags::pin_in_bags;
use crate::forms::{FormRules, Sources, rules_by_form};
use crate::pinned_names::pin;
use crate::targets::pin_targets;
use merge_choices::choice::Chosen;
use population_rows::form::{Form, SlotForm};
use schema_constraints::tables::RuleTables;
use std::alloc::{AllocError, Global};
use step_values::slot::Slots;
use typed_populations::instances::InstanceRow;
use typed_populations::population::Population;

/// Pins the instances to which the values at these positions refer.
fn pin_keys(pinned: &mut Vec<u64>, keys: &[usize], values: &Slots<'_, '_>) -> Result<(), AllocError>
    ensures { OnOk result (Pins (λ y. OneOf (λ p. OccursAt y (nth values.now p)) keys.now)
        pinned.old pinned.new) }
{
    for position in keys {
        if let Some(value) = values.item(*position) {
            pin_targets(pinned, &value)?;
        }
    }
    Ok(())
}

/// Pins the instances that occur in SETs and BAGs that pin them, among the values of these
/// attributes.
fn pin_bags(
    pinned: &mut Vec<u64>,
    in_sets: bool,
    slots: &[SlotForm],
    values: &Slots<'_, '_>,
) -> Result<(), AllocError>
    ensures { (s : Schema) → OnOk result (Pins (λ y. OneOf (λ x. InBag in_sets y x.value)
        (slots_seen s slots.now values.now)) pinned.old pinned.new) }
{
    for i in 0..slots.len() {
        let Some(value) = values.item(i) else {
            return Ok(());
        };
        pin_in_bags(pinned, in_sets, &value)?;
    }
    Ok(())
}

/// Pins an instance if its form says so.
fn pin_itself(pinned: &mut Vec<u64>, rules: &FormRules, name: u64) -> Result<(), AllocError>
    ensures { OnOk result (Pins (PinnedAt rules.now name) pinned.old pinned.new) }
{
    if rules.is_pinned {
        pin(pinned, name)?;
    }
    Ok(())
}

/// Pins what an instance of this form pins by the rules of its form.
fn pin_instance(
    pinned: &mut Vec<u64>,
    in_sets: bool,
    form: &Form,
    rules: &FormRules,
    instance: &InstanceRow<'_, '_>,
) -> Result<(), AllocError>
    ensures { (s : Schema) → OnOk result (Pins (PinnedBy s in_sets form.now rules.now
        instance.now.name instance.now.values) pinned.old pinned.new) }
{
    pin_itself(pinned, rules, instance.name)?;
    pin_keys(pinned, &rules.keys, &instance.values)?;
    pin_bags(pinned, in_sets, &form.slots, &instance.values)
}

/// Pins what an instance pins by the rules of its form, if it has a form.
fn pin_row(
    pinned: &mut Vec<u64>,
    in_sets: bool,
    forms: &[Form],
    rows: &[FormRules],
    instance: &InstanceRow<'_, '_>,
) -> Result<(), AllocError>
    ensures { (s : Schema) → OnOk result (Pins (PinnedAmong s in_sets forms.now rows.now
        instance.now.form instance.now.name instance.now.values) pinned.old pinned.new) }
{
    let Some(number) = instance.form else {
        return Ok(());
    };
    let Some(form) = forms.get(number as usize) else {
        return Ok(());
    };
    let Some(rules) = rows.get(number as usize) else {
        return Ok(());
    };
    pin_instance(pinned, in_sets, form, rules, instance)
}

/// Pins what instances pin by their types, by uniqueness rules, and by SETs and BAGs.
pub(crate) fn pin_by_forms(
    alloc: Global,
    population: &Population<'_, '_, '_, '_>,
    pinned: &mut Vec<u64>,
    rules: &RuleTables<'_>,
    chosen: &Chosen,
) -> Result<(), AllocError>
    requires made { IsMade population.now.types.now }
    requires numbered { AreNumbered (the_schema population.now.types.now.names) rules.now }
    ensures { (en : Entities) (those : MergeOptions)
        → AreEntities (the_schema population.now.types.now.names) en
        → AreChosen (the_schema population.now.types.now.names) those chosen.now
        → OnOk result (Pins (λ y. OneOf
        (PinsByForm (the_schema population.now.types.now.names) en those
        (rules_seen (the_schema population.now.types.now.names) rules.now).uniques y)
        (population_seen population.now)) pinned.old pinned.new) }
{
    let sources = Sources {
        above: &population.types.above,
        chosen,
        uniques: &rules.uniques,
    };
    let rows = rules_by_form(alloc, &sources, population.forms())?;
    for row in 0..population.len() {
        let instance = population.instance(row);
        pin_row(pinned, chosen.in_sets, population.forms(), &rows, &instance)?;
    }
    Ok(())
}
