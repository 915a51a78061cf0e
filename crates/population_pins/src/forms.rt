//! What pins the instances of a form, and what they pin.

ghost use Rattle.std.specs.Prelude.{◌≡◌, ◌++◌, ◌&&◌, not, filter_map, IfOk, OnOk};
ghost use Rattle.std.specs.List.{AllZip, list_any};
ghost use Rattle.graphs.specs.Graphs.{graph_of};
ghost use Rattle.typed_populations.specs.ValueOrder.{position_among};
ghost use Rattle.population_pins.specs.steps.Forms.{
  has_unchosen_leaf,
  states_rule,
  key_positions,
  keys_by,
  IsFormRules,
};
ghost use Rattle.population_pins.specs.steps.SupertypeLists.{IsTransitive, AreClear, is_marked};
ghost use Rattle.merge_choices.specs.ChosenEntities.{is_chosen};

use crate::supertype_marks::SupertypeMarks;
use merge_choices::choice::Chosen;
use population_rows::form::{Form, SlotForm};
use schema_constraints::uniques::UniqueRule;
use std::alloc::{AllocError, Global};
use typed_populations::accessors::position_of;

/// What pins the instances of a form, and what they pin by uniqueness rules.
#[derive(Drop)]
pub(crate) struct FormRules {
    /// The instances are pinned: one of their types that has no subtype among them isn't chosen, or
    /// one declares a uniqueness rule.
    pub(crate) is_pinned: bool,
    /// The positions of their values that uniqueness rules name.
    pub(crate) keys: Vec<usize>,
}

/// What decides which instances of a form are pinned: for each entity the numbers of its proper
/// supertypes; the chosen entities; and the uniqueness rules.
#[derive(Clone, Copy)]
pub(crate) struct Sources<'r, 's> {
    pub(crate) above: &'r [Vec<u32>],
    pub(crate) chosen: &'r Chosen,
    pub(crate) uniques: &'r [UniqueRule<'s>],
}

/// Whether one of these types is neither chosen nor marked.
fn has_unchosen(marks: &SupertypeMarks, chosen: &Chosen, types: &[u32]) -> bool
    ensures { result
        ≡ list_any (λ i. not (is_chosen chosen.now i) && not (is_marked marks.now i)) types.now }
{
    types.iter().any(|entity| !chosen.contains(*entity) && !marks.contains(*entity))
}

/// Whether one of these types that has no subtype among them isn't chosen. All marks are clear
/// before and after.
fn has_unchosen_leaf(
    marks: &mut SupertypeMarks,
    above: &[Vec<u32>],
    chosen: &Chosen,
    types: &[u32],
) -> Result<bool, AllocError>
    requires above { IsTransitive (graph_of above.now) }
    requires clear { AreClear (graph_of above.now) marks.old }
    ensures leaf { IfOk result (λ b. b
        ≡ has_unchosen_leaf (graph_of above.now) chosen.now types.now) }
    ensures clear { OnOk result (AreClear (graph_of above.now) marks.new) }
{
    marks.mark_above(above, types)?;
    let is_found = has_unchosen(marks, chosen, types);
    marks.clear();
    Ok(is_found)
}

/// Whether one of these types declares a uniqueness rule.
fn states_rule(uniques: &[UniqueRule<'_>], types: &[u32]) -> bool
    ensures { result ≡ states_rule uniques.now types.now }
{
    uniques.iter().any(|rule| types.contains(&rule.entity))
}

/// Adds the positions of the values of these attributes that the form has.
fn add_positions(
    keys: &mut Vec<usize>,
    slots: &[SlotForm],
    places: &[u32],
) -> Result<(), AllocError>
    ensures { OnOk result (keys.new.items
        ≡ keys.old.items ++ filter_map (position_among slots.now) places.now) }
{
    for place in places {
        if let Some(position) = position_of(slots, *place) {
            keys.push(position)?;
        }
    }
    Ok(())
}

/// Adds the positions of the values that a uniqueness rule names; nothing if its entity isn't a
/// type of the form.
fn add_keys(keys: &mut Vec<usize>, rule: &UniqueRule<'_>, form: &Form) -> Result<(), AllocError>
    ensures { OnOk result (keys.new.items ≡ keys.old.items ++ key_positions rule.now form.now) }
{
    if !form.types.contains(&rule.entity) {
        return Ok(());
    }
    add_positions(keys, &form.slots, &rule.places)
}

/// Returns the positions of the values that uniqueness rules name.
fn keys_of(alloc: Global, uniques: &[UniqueRule<'_>], form: &Form) -> Result<Vec<usize>, AllocError>
    ensures { IfOk result (λ t. t.items ≡ keys_by uniques.now form.now) }
{
    let mut keys = Vec::new(alloc);
    for rule in uniques {
        add_keys(&mut keys, rule, form)?;
    }
    Ok(keys)
}

/// Returns the rules of a form. All marks are clear before and after.
fn rules_of(
    alloc: Global,
    sources: &Sources<'_, '_>,
    form: &Form,
    marks: &mut SupertypeMarks,
) -> Result<FormRules, AllocError>
    requires above { IsTransitive (graph_of sources.now.above.now) }
    requires clear { AreClear (graph_of sources.now.above.now) marks.old }
    ensures rules { IfOk result (IsFormRules sources.now form.now) }
    ensures clear { OnOk result (AreClear (graph_of sources.now.above.now) marks.new) }
{
    let is_unchosen = has_unchosen_leaf(marks, sources.above, sources.chosen, &form.types)?;
    let is_pinned = is_unchosen || states_rule(sources.uniques, &form.types);
    let keys = keys_of(alloc, sources.uniques, form)?;
    Ok(FormRules { is_pinned, keys })
}

/// Returns the rules of each form.
pub(crate) fn rules_by_form(
    alloc: Global,
    sources: &Sources<'_, '_>,
    forms: &[Form],
) -> Result<Vec<FormRules>, AllocError>
    requires { IsTransitive (graph_of sources.now.above.now) }
    ensures { IfOk result (λ t. AllZip (IsFormRules sources.now) forms.now t.items) }
{
    let mut marks = SupertypeMarks::of(alloc, sources.above)?;
    let mut rows = Vec::with_capacity(alloc, forms.len())?;
    for form in forms {
        rows.push(rules_of(alloc, sources, form, &mut marks)?)?;
    }
    Ok(rows)
}
