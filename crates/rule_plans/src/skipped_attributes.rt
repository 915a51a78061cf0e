//! The attributes whose values aren't of wanted types, nor have elements of wanted types; and the
//! forms whose instances have no values of wanted types at any depth.
#![tactic(auto)]

ghost use Rattle.std.specs.Prelude.{◌≡◌, [], ◌∷◌, map, IfOk};
ghost use Rattle.schema_redeclarations.specs.Uses.{of_place};
ghost use Rattle.rule_settings.specs.Settings.{IsSetting};
ghost use Rattle.rule_plans.specs.steps.Unsought.{
  is_unsought,
  all_unsought,
  is_unsought_place,
  unsought_of,
  is_wholly_unsought,
  all_wholly_unsought,
  is_unsought_form,
  says_form,
  table_by,
  AreTables,
};

use crate::flat_values::has_flat_values;
use crate::value_search::Seeker;
use crate::values::{Asked, declared_at, uses_at};
use population_rows::form::{Form, SlotForm};
use rule_settings::setting::Setting;
use schema_redeclarations::uses::{AttributeUse, Uses};
use schema_underlying_types::base::Base;
use std::alloc::{AllocError, Global};

/// Where there can't be values of wanted types, by the forms of instances.
#[derive(Drop)]
pub struct Unsought {
    /// For each form and each of its attributes, whether no type of the form declares the attribute
    /// with a wanted data type, or with elements of one.
    pub attributes: Vec<Vec<bool>>,
    /// For each form, whether none of its instances that conform to the schema has a value of a
    /// wanted type, at any depth.
    pub forms: Vec<bool>,
}

/// Whether neither the data type numbered `number` nor that of its elements is wanted.
fn is_unsought(seeker: &Seeker<'_, '_, '_, '_, '_>, number: u32) -> bool
    ensures { result ≡ is_unsought seeker.now number }
{
    let sought = seeker.by_number(number);
    sought.declared.is_none() && seeker.elements_of(sought).declared.is_none()
}

/// Whether `each` doesn't declare the explicit attribute numbered `place` with a wanted data type,
/// or with elements of one.
fn is_unsought_use(seeker: &Seeker<'_, '_, '_, '_, '_>, place: u32, each: AttributeUse) -> bool
    ensures { result ≡ all_unsought seeker.now (of_place place (each ∷ [])) }
{
    if each.place == place {
        is_unsought(seeker, each.data_type)
    } else {
        true
    }
}

/// Whether none of `uses` declares the explicit attribute numbered `place` with a wanted data type,
/// or with elements of one.
fn all_unsought(seeker: &Seeker<'_, '_, '_, '_, '_>, place: u32, uses: &[AttributeUse]) -> bool
    ensures { result ≡ all_unsought seeker.now (of_place place uses.now) }
{
    for each in uses {
        if !is_unsought_use(seeker, place, *each) {
            return false;
        }
    }
    true
}

/// Whether none of `types` declares the explicit attribute numbered `place` with a wanted data
/// type, or with elements of one.
fn is_unsought_place(
    seeker: &Seeker<'_, '_, '_, '_, '_>,
    uses: &Uses,
    types: &[u32],
    place: u32,
) -> bool
    ensures { result ≡ is_unsought_place seeker.now uses.now types.now place }
{
    for each in types {
        if !all_unsought(seeker, place, uses_at(uses, *each)) {
            return false;
        }
    }
    true
}

/// Returns, for each attribute of `form`, whether no type of the form declares it with a wanted
/// data type, or with elements of one.
fn unsought_of(
    alloc: Global,
    seeker: &Seeker<'_, '_, '_, '_, '_>,
    uses: &Uses,
    form: &Form,
) -> Result<Vec<bool>, AllocError>
    ensures { IfOk result (λ t. t.items ≡ unsought_of seeker.now uses.now form.now) }
{
    let mut table = Vec::with_capacity(alloc, form.slots.len())?;
    for slot in &form.slots {
        table.push(is_unsought_place(seeker, uses, &form.types, slot.place))?;
    }
    Ok(table)
}

/// Returns, for each form and each of its attributes, whether no type of the form declares the
/// attribute with a wanted data type, or with elements of one.
fn unsought_rows(
    alloc: Global,
    seeker: &Seeker<'_, '_, '_, '_, '_>,
    uses: &Uses,
    forms: &[Form],
) -> Result<Vec<Vec<bool>>, AllocError>
    ensures { IfOk result (λ t. map (λ v. v.items) t.items
        ≡ map (unsought_of seeker.now uses.now) forms.now) }
{
    let mut rows = Vec::with_capacity(alloc, forms.len())?;
    for form in forms {
        rows.push(unsought_of(alloc, seeker, uses, form)?)?;
    }
    Ok(rows)
}

/// Whether no value that fits the explicit attribute numbered `place` is of a wanted type, or has
/// one inside at any depth.
fn is_wholly_unsought(seeker: &Seeker<'_, '_, '_, '_, '_>, asked: &Asked<'_>, place: u32) -> bool
    ensures { result ≡ is_wholly_unsought seeker.now asked.now.uses.now asked.now.declared.now
        asked.now.types.now place }
{
    is_unsought_place(seeker, asked.uses, asked.types, place)
        && has_flat_values(seeker.types, declared_at(asked.declared, place))
}

/// Whether no value that fits one of the attributes `slots` is of a wanted type, or has one inside
/// at any depth.
fn all_wholly_unsought(
    seeker: &Seeker<'_, '_, '_, '_, '_>,
    asked: &Asked<'_>,
    slots: &[SlotForm],
) -> bool
    ensures { result ≡ all_wholly_unsought seeker.now asked.now.uses.now asked.now.declared.now
        asked.now.types.now slots.now }
{
    for slot in slots {
        if !is_wholly_unsought(seeker, asked, slot.place) {
            return false;
        }
    }
    true
}

/// Returns, for each form, whether no value that fits one of its attributes is of a wanted type, or
/// has one inside at any depth.
fn unsought_forms(
    alloc: Global,
    seeker: &Seeker<'_, '_, '_, '_, '_>,
    uses: &Uses,
    declared: &[Base],
    forms: &[Form],
) -> Result<Vec<bool>, AllocError>
    ensures { IfOk result (λ t. t.items
        ≡ map (is_unsought_form seeker.now uses.now declared.now) forms.now) }
{
    let mut rows = Vec::with_capacity(alloc, forms.len())?;
    for form in forms {
        let asked = Asked {
            uses,
            declared,
            types: &form.types,
        };
        rows.push(all_wholly_unsought(seeker, &asked, &form.slots))?;
    }
    Ok(rows)
}

/// Returns where the instances of a population can't have values of `wanted` types, by their forms.
/// `wanted` says for each declaration whether it is wanted.
pub fn unsought_by_form(
    alloc: Global,
    setting: &Setting<'_, '_, '_, '_, '_, '_>,
    wanted: &[bool],
) -> Result<Unsought, AllocError>
    requires { IsSetting setting.now }
    ensures { IfOk result (AreTables setting.now wanted.now) }
{
    let population = setting.extents.population;
    let tables = setting.tables;
    let seeker = Seeker {
        names: &population.types.names,
        types: &tables.value_types,
        forms: &tables.data_types.forms,
        wanted,
    };
    let forms = population.forms();
    let attributes = unsought_rows(alloc, &seeker, tables.uses, forms)?;
    let whole = unsought_forms(alloc, &seeker, tables.uses, &tables.declared, forms)?;
    Ok(Unsought {
        attributes,
        forms: whole,
    })
}

/// Returns the table of the form with this number; empty if there is none.
pub(crate) fn table_by(tables: &[Vec<bool>], form: Option<u32>) -> &[bool]
    ensures { result.now ≡ table_by (map (λ v. v.items) tables.now) form }
{
    let Some(number) = form else {
        return &[];
    };
    match tables.get(number as usize) {
        Some(table) => table,
        None => &[],
    }
}

/// Returns the element of `table` for the form with this number; false if there is none.
pub(crate) fn says_form(table: &[bool], form: Option<u32>) -> bool
    ensures { result ≡ says_form table.now form }
{
    let Some(number) = form else {
        return false;
    };
    match table.get(number as usize) {
        Some(is_it) => *is_it,
        None => false,
    }
}
