//! The values of SELF at an instance.
#![tactic(auto)]

ghost use Rattle.std.specs.Prelude.{
  ◌≡◌,
  ◌<◌,
  [],
  ◌∷◌,
  ◌&&◌,
  true,
  ℕ,
  Bool,
  List,
  Some,
  length,
  map,
  slice_get,
  IfOk,
  OnOk,
};
ghost use Rattle.step_values.specs.steps.Slots.{nth};
ghost use Rattle.schema_semantics.specs.Names.{Name};
ghost use Rattle.schema_names.specs.Numbers.{HasNumber};
ghost use Rattle.schema_names.specs.Schemas.{the_schema};
ghost use Rattle.schema_underlying_types.specs.BaseEntries.{entry};
ghost use Rattle.schema_underlying_types.specs.BaseViews.{name_at};
ghost use Rattle.schema_redeclarations.specs.Uses.{of_place, uses_at};
ghost use Rattle.conformance.specs.ParameterFits.{is_listed};
ghost use Rattle.conformance.specs.Populations.{Instance};
ghost use Rattle.typed_populations.specs.PopulationViews.{population_seen};
ghost use Rattle.typed_populations.specs.PopulationTables.{form_among, types_by_form};
ghost use Rattle.rule_settings.specs.Settings.{IsSetting, Meant, schema_in, population_in};
ghost use Rattle.rule_plans.specs.steps.Coded.{
  Told,
  is_wanted,
  slots_in,
  coded_at,
  coded_uses,
  coded_place,
  coded_slots,
};
ghost use Rattle.rule_plans.specs.steps.Flat.{is_flat_at};
ghost use Rattle.rule_plans.specs.steps.Seeking.{Agrees, Covers, those, told_in, Adds};
ghost use Rattle.rule_plans.specs.steps.Speaking.{is_of, values_of, AreFound, TypesTell};
ghost use Rattle.rule_plans.specs.steps.Unsought.{is_unsought_place, AreUnsought, AreRight, IsRight};

use crate::flat_values::is_flat_at;
use crate::found_values::{Found, Typed};
use crate::skipped_attributes::{Unsought, says_form, table_by};
use crate::typed_values::add_values;
use crate::value_search::{Seeker, Sought};
use population_rows::form::{Form, SlotForm};
use rule_settings::setting::Setting;
use schema_redeclarations::uses::{AttributeUse, Uses};
use schema_underlying_types::base::Base;
use std::alloc::{AllocError, Global};
use step_values::slot::Slots;
use typed_populations::population::Population;

/// The tables that give the data types of an instance's values.
#[derive(Drop)]
pub(crate) struct Asked<'n> {
    /// The declarations of attributes by the entities of the schema.
    pub uses: &'n Uses,
    /// The underlying type with which each explicit attribute is declared, by number.
    pub declared: &'n [Base],
    /// The types of the instance.
    pub types: &'n [u32],
}

/// Returns the types of instances of the form with this number; empty if there is none.
fn types_at(forms: &[Form], form: Option<u32>) -> &[u32]
    ensures { result.now ≡ types_by_form (form_among forms.now form) }
{
    let Some(number) = form else {
        return &[];
    };
    match forms.get(number as usize) {
        Some(form) => &form.types,
        None => &[],
    }
}

/// Returns the attributes of instances of the form with this number; empty if there is none.
fn slots_at(forms: &[Form], form: Option<u32>) -> &[SlotForm]
    ensures { result.now ≡ slots_in (form_among forms.now form) }
{
    let Some(number) = form else {
        return &[];
    };
    match forms.get(number as usize) {
        Some(form) => &form.slots,
        None => &[],
    }
}

/// Returns the underlying type with which the explicit attribute numbered `place` is declared.
pub(crate) fn declared_at(declared: &[Base], place: u32) -> &Base
    ensures { result.now ≡ entry declared.now place }
{
    match declared.get(place as usize) {
        Some(base) => base,
        None => &Base::Integer,
    }
}

/// Returns the declarations of explicit attributes by the entity numbered `number`; empty if it
/// isn't the number of an entity.
pub(crate) fn uses_at(uses: &Uses, number: u32) -> &[AttributeUse]
    ensures { result.now ≡ uses_at uses.now number }
{
    match uses.explicit.get(number as usize) {
        Some(row) => row,
        None => &[],
    }
}

/// Adds the values of wanted types in the value at `position`, if any.
fn add_at<'p, 'r>(
    seeker: &Seeker<'_, '_, '_, 'r, 'p>,
    found: &mut Found<'p, 'r>,
    sought: Sought,
    base: &'p Base,
    values: &Slots<'p, 'r>,
    position: usize,
) -> Result<(), AllocError>
    ensures { OnOk result (Adds (coded_at seeker.now sought base.now (nth values.now position))
        found.old found.new) }
{
    match values.item(position) {
        Some(value) => add_values(seeker, found, sought, base, value),
        None => Ok(()),
    }
}

/// Adds the values of wanted types in the value at `position`, by the data type of `each`, if that
/// declares the explicit attribute numbered `place`.
fn add_use<'p, 'r>(
    seeker: &Seeker<'_, '_, '_, 'r, 'p>,
    found: &mut Found<'p, 'r>,
    base: &'p Base,
    values: &Slots<'p, 'r>,
    position: usize,
    place: u32,
    each: AttributeUse,
) -> Result<(), AllocError>
    ensures { OnOk result (Adds (coded_uses seeker.now base.now (nth values.now position)
        (of_place place (each ∷ []))) found.old found.new) }
{
    if each.place == place {
        let sought = seeker.by_number(each.data_type);
        add_at(seeker, found, sought, base, values, position)
    } else {
        Ok(())
    }
}

/// Adds the values of wanted types in the value at `position`, by the data types with which `uses`
/// declare the explicit attribute numbered `place`.
fn add_uses<'p, 'r>(
    seeker: &Seeker<'_, '_, '_, 'r, 'p>,
    found: &mut Found<'p, 'r>,
    base: &'p Base,
    values: &Slots<'p, 'r>,
    position: usize,
    place: u32,
    uses: &[AttributeUse],
) -> Result<(), AllocError>
    ensures { OnOk result (Adds (coded_uses seeker.now base.now (nth values.now position)
        (of_place place uses.now)) found.old found.new) }
{
    for i in 0..uses.len() {
        add_use(seeker, found, base, values, position, place, uses[i])?;
    }
    Ok(())
}

/// Adds the values of wanted types in the value at `position`, by the data types with which the
/// types of the instance declare the explicit attribute numbered `place`.
fn add_place<'p, 'r>(
    seeker: &Seeker<'_, '_, '_, 'r, 'p>,
    found: &mut Found<'p, 'r>,
    asked: &Asked<'p>,
    values: &Slots<'p, 'r>,
    position: usize,
    place: u32,
) -> Result<(), AllocError>
    ensures { OnOk result (Adds (coded_place seeker.now asked.now place (nth values.now position))
        found.old found.new) }
{
    let base = declared_at(asked.declared, place);
    let types = asked.types;
    for i in 0..types.len() {
        let uses = uses_at(asked.uses, types[i]);
        add_uses(seeker, found, base, values, position, place, uses)?;
    }
    Ok(())
}

/// Whether the value at `position` is skipped: `unsought` marks its attribute, and the value is
/// flat.
fn is_passed(unsought: &[bool], values: &Slots<'_, '_>, position: usize) -> bool
    ensures { result ≡ (is_wanted unsought.now position && is_flat_at (nth values.now position)) }
{
    match unsought.get(position) {
        Some(is_it) => *is_it && is_flat_at(values, position),
        None => false,
    }
}

/// Adds the values of wanted types in the value at `position`, which is that of the explicit
/// attribute numbered `place`, unless the value is skipped.
fn add_slot<'p, 'r>(
    seeker: &Seeker<'_, '_, '_, 'r, 'p>,
    found: &mut Found<'p, 'r>,
    asked: &Asked<'p>,
    values: &Slots<'p, 'r>,
    position: usize,
    place: u32,
    unsought: &[bool],
) -> Result<(), AllocError>
    requires { is_wanted unsought.now position ≡ true
        → is_unsought_place seeker.now asked.now.uses.now asked.now.types.now place ≡ true }
    ensures { OnOk result (Adds (coded_place seeker.now asked.now place (nth values.now position))
        found.old found.new) }
{
    if is_passed(unsought, values, position) {
        return Ok(());
    }
    add_place(seeker, found, asked, values, position, place)
}

/// Adds the values of wanted types in `values`, which are those of the attributes `slots`.
fn add_slots<'p, 'r>(
    seeker: &Seeker<'_, '_, '_, 'r, 'p>,
    found: &mut Found<'p, 'r>,
    asked: &Asked<'p>,
    slots: &[SlotForm],
    values: &Slots<'p, 'r>,
    unsought: &[bool],
) -> Result<(), AllocError>
    requires { AreUnsought seeker.now asked.now.uses.now asked.now.types.now slots.now
        unsought.now }
    ensures { OnOk result (Adds (coded_slots seeker.now asked.now slots.now values.now) found.old
        found.new) }
{
    for i in 0..slots.len() {
        add_slot(seeker, found, asked, values, i, slots[i].place, unsought)?;
    }
    Ok(())
}

/// Adds the values of wanted types at the instance of `row`.
fn add_values_of<'p, 'e, 'r, 't, 's: 'r, 'a: 'r>(
    setting: &Setting<'s, 't, 'r, 'a, 'e, 'p>,
    found: &mut Found<'p, 'r>,
    row: usize,
    wanted: &[bool],
    unsought: &[Vec<bool>],
) -> Result<(), AllocError>
    requires setting { IsSetting setting.now }
    requires within { row < length (population_in setting.now) }
    requires unsought { AreRight setting.now wanted.now (map (λ v. v.items) unsought.now) }
    ensures { OnOk result ((told : List Told) × Adds told found.old found.new
        × ((m : Meant setting.now) → (x : Instance)
        → slice_get (population_in setting.now) row ≡ Some x
        → AreFound setting.now m x wanted.now told)) }
{
    let population = setting.extents.population;
    let tables = setting.tables;
    let instance = population.instance(row);
    let forms = population.forms();
    let seeker = Seeker {
        names: &population.types.names,
        types: &tables.value_types,
        forms: &tables.data_types.forms,
        wanted,
    };
    let asked = Asked {
        uses: tables.uses,
        declared: &tables.declared,
        types: types_at(forms, instance.form),
    };
    let slots = slots_at(forms, instance.form);
    let table = table_by(unsought, instance.form);
    add_slots(&seeker, found, &asked, slots, &instance.values, table)
}

/// Whether the instance of `row` is of `entity`.
pub fn is_of_entity(population: &Population<'_, '_, '_, '_>, row: usize, entity: u32) -> bool
    requires within { row < length (population_seen population.now) }
    requires numbered { HasNumber (the_schema population.now.types.now.names)
        (name_at (the_schema population.now.types.now.names) entity) entity }
    ensures { (x : Instance) → slice_get (population_seen population.now) row ≡ Some x
        → result ≡ is_listed (name_at (the_schema population.now.types.now.names) entity) x.types }
{
    let instance = population.instance(row);
    types_at(population.forms(), instance.form).contains(&entity)
}

/// Returns the values of wanted types at the instance of `row`, at any depth and in order, each
/// with the number of its type. `wanted` says for each declaration whether it is wanted.
///
/// The rule of a defined type is tried for the values of that type and of the types that are
/// defined by it, if all these types are wanted (ISO 10303-11, 9.1).
pub fn self_values<'p, 'e, 'r, 't, 's: 'r, 'a: 'r>(
    alloc: Global,
    setting: &Setting<'s, 't, 'r, 'a, 'e, 'p>,
    row: usize,
    wanted: &[bool],
) -> Result<Vec<Typed<'p, 'r>>, AllocError>
    requires setting { IsSetting setting.now }
    requires within { row < length (population_in setting.now) }
    ensures { IfOk result (λ v. (m : Meant setting.now) → (x : Instance)
        → slice_get (population_in setting.now) row ≡ Some x → (t : Name) → (p : ℕ → Bool)
        → Agrees (schema_in setting.now) p (is_of setting.now m t)
        → Covers (schema_in setting.now) wanted.now (is_of setting.now m t)
        → those p (map told_in v.items) ≡ values_of setting.now m x t) }
{
    let mut found = Found {
        keeps: true,
        values: Vec::new(alloc),
        types: Vec::new(alloc),
    };
    add_values_of(setting, &mut found, row, wanted, &[])?;
    let Found { values, .. } = found;
    Ok(values)
}

/// Returns the numbers of the wanted types of the values at the instance of `row`, and skips
/// attributes that `unsought` marks.
fn types_found<'p, 'e, 'r, 't, 's: 'r, 'a: 'r>(
    alloc: Global,
    setting: &Setting<'s, 't, 'r, 'a, 'e, 'p>,
    row: usize,
    wanted: &[bool],
    unsought: &[Vec<bool>],
) -> Result<Vec<u32>, AllocError>
    requires setting { IsSetting setting.now }
    requires within { row < length (population_in setting.now) }
    requires unsought { AreRight setting.now wanted.now (map (λ v. v.items) unsought.now) }
    ensures { IfOk result (λ v. (m : Meant setting.now) → (x : Instance)
        → slice_get (population_in setting.now) row ≡ Some x
        → TypesTell setting.now m x wanted.now v.items) }
{
    let mut found = Found {
        keeps: false,
        values: Vec::new(alloc),
        types: Vec::new(alloc),
    };
    add_values_of(setting, &mut found, row, wanted, unsought)?;
    let Found { types, .. } = found;
    Ok(types)
}

/// Returns the numbers of the wanted types of the values at the instance of `row`, each once. The
/// rule of a defined type has no value to be tried for if neither that type nor a type that is
/// defined by it is returned. `unsought` has the tables of `unsought_by_form`; if they are empty,
/// all attributes are searched.
pub fn value_types<'p, 'e, 'r, 't, 's: 'r, 'a: 'r>(
    alloc: Global,
    setting: &Setting<'s, 't, 'r, 'a, 'e, 'p>,
    row: usize,
    wanted: &[bool],
    unsought: &Unsought,
) -> Result<Vec<u32>, AllocError>
    requires setting { IsSetting setting.now }
    requires within { row < length (population_in setting.now) }
    requires unsought { AreRight setting.now wanted.now
        (map (λ v. v.items) unsought.now.attributes.items) }
    requires forms { IsRight setting.now wanted.now unsought.now.forms.items }
    ensures { IfOk result (λ v. (m : Meant setting.now) → (x : Instance)
        → slice_get (population_in setting.now) row ≡ Some x
        → TypesTell setting.now m x wanted.now v.items) }
{
    let instance = setting.extents.population.instance(row);
    if says_form(&unsought.forms, instance.form) {
        return Ok(Vec::new(alloc));
    }
    types_found(alloc, setting, row, wanted, &unsought.attributes)
}
