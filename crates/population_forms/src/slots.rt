//! The attributes that an instance has values of (ISO 10303-11, 9.2.1 and 9.2.3.4).

ghost use Rattle.std.specs.Prelude.{◌≡◌, ℕ, ◌++◌, [], map, flat_map, filter_map, slice_get, IfOk, OnOk};
ghost use Rattle.std.specs.List.{AllZip, cons_option, list_all, list_any};
ghost use Rattle.graphs.specs.Graphs.{graph_of, has, next};
ghost use Rattle.graphs.specs.Referrers.{referrers_of};
ghost use Rattle.schema_redeclarations.specs.Uses.{uses_at};
ghost use Rattle.schema_redeclarations.specs.declared.uses.AttributeUse.{AttributeUse};
ghost use Rattle.population_forms.specs.steps.Slots.{IsSlotAt};
ghost use Rattle.population_forms.specs.steps.ComputedReferences.{references_from};

use crate::sorted_rows::row_at;
use graphs::referrers::{Reference, Referrers};
use population_rows::form::SlotForm;
use schema_redeclarations::uses::{AttributeUse, Uses};
use std::alloc::{AllocError, Global};

/// Returns the declarations of explicit attributes by the entity numbered `number`; empty if it
/// isn't the number of an entity.
fn uses_at(uses: &Uses, number: u32) -> &[AttributeUse]
    ensures { result.now ≡ uses_at uses.now number }
{
    match uses.explicit.get(number as usize) {
        Some(row) => row,
        None => &[],
    }
}

/// Returns all declarations of explicit attributes by `types`, in the order of `types`.
fn all_uses(alloc: Global, uses: &Uses, types: &[u32]) -> Result<Vec<AttributeUse>, AllocError>
    ensures { IfOk result (λ found. found.items ≡ flat_map (uses_at uses.now) types.now) }
{
    let mut found = Vec::new(alloc);
    for entity in types {
        found.extend_from_slice(uses_at(uses, *entity))?;
    }
    Ok(found)
}

/// Returns a reference for each of `uses`, from its position to its explicit attribute.
fn references(alloc: Global, uses: &[AttributeUse]) -> Result<Vec<Reference>, AllocError>
    ensures { IfOk result (λ v. v.items ≡ references_from 0 uses.now) }
{
    let mut references = Vec::with_capacity(alloc, uses.len())?;
    for i in 0..uses.len() {
        references.push(Reference {
            target: uses[i].place as u64,
            referrer: i as u64,
        })?;
    }
    Ok(references)
}

/// Adds the element of `uses` at position `number`, if any.
fn add_use(
    found: &mut Vec<AttributeUse>,
    uses: &[AttributeUse],
    number: u64,
) -> Result<(), AllocError>
    ensures { OnOk result (found.new.items
        ≡ found.old.items ++ cons_option (slice_get uses.now number) []) }
{
    if let Some(each) = uses.get(number as usize) {
        found.push(*each)?;
    }
    Ok(())
}

/// Returns the elements of `uses` at the positions `numbers`, in order.
fn uses_of(
    alloc: Global,
    uses: &[AttributeUse],
    numbers: &[u64],
) -> Result<Vec<AttributeUse>, AllocError>
    ensures { IfOk result (λ found. found.items ≡ filter_map (slice_get uses.now) numbers.now) }
{
    let mut found = Vec::new(alloc);
    for number in numbers {
        add_use(&mut found, uses, *number)?;
    }
    Ok(found)
}

/// Whether one of `types` redeclares the explicit attribute numbered `place` as derived.
fn is_derived(uses: &Uses, types: &[u32], place: u32) -> bool
    ensures { result
        ≡ list_any (λ t. has (next (graph_of uses.now.derived.items) t) place) types.now }
{
    types
        .iter()
        .any(|entity| row_at(&uses.derived, *entity).contains(&place))
}

/// Whether all of `uses` are OPTIONAL.
fn all_optional(uses: &[AttributeUse]) -> bool
    ensures { result ≡ list_all (λ (u : AttributeUse). u.is_optional) uses.now }
{
    uses.iter().all(|each| each.is_optional)
}

/// Returns the data types of `uses`.
fn data_types_of(alloc: Global, uses: &[AttributeUse]) -> Result<Vec<u32>, AllocError>
    ensures { IfOk result (λ row. row.items ≡ map (λ (u : AttributeUse). u.data_type) uses.now) }
{
    uses.iter().map(|each| each.data_type).collect(alloc)
}

/// Returns the requirements on the value of the explicit attribute numbered `place`. `all` lists
/// the declarations of attributes by `types`, and `by_place` finds those of one attribute among
/// them.
fn slot(
    alloc: Global,
    uses: &Uses,
    types: &[u32],
    all: &[AttributeUse],
    by_place: &Referrers,
    place: u32,
) -> Result<SlotForm, AllocError>
    requires all { all.now ≡ flat_map (uses_at uses.now) types.now }
    requires by_place { (q : ℕ) → referrers_of q by_place.now
        ≡ referrers_of q (references_from 0 all.now) }
    ensures { IfOk result (IsSlotAt uses.now types.now place) }
{
    let found = uses_of(alloc, all, by_place.find(place as u64))?;
    Ok(SlotForm {
        place,
        is_derived: is_derived(uses, types, place),
        is_optional: all_optional(&found),
        data_types: data_types_of(alloc, &found)?,
    })
}

/// Returns the requirements on the values of the explicit attributes numbered `places`. `all` lists
/// the declarations of attributes by `types`, and `by_place` finds those of one attribute among
/// them.
fn slots_in_turn(
    alloc: Global,
    uses: &Uses,
    types: &[u32],
    all: &[AttributeUse],
    by_place: &Referrers,
    places: &[u32],
) -> Result<Vec<SlotForm>, AllocError>
    requires all { all.now ≡ flat_map (uses_at uses.now) types.now }
    requires by_place { (q : ℕ) → referrers_of q by_place.now
        ≡ referrers_of q (references_from 0 all.now) }
    ensures { IfOk result (λ found. AllZip (IsSlotAt uses.now types.now) places.now found.items) }
{
    let mut found = Vec::new(alloc);
    for place in places {
        let slot = slot(alloc, uses, types, all, by_place, *place)?;
        found.push(slot)?;
    }
    Ok(found)
}

/// Returns the requirements of `types` on the values of the explicit attributes numbered `places`.
///
/// The time is that for sorting all declarations of attributes by `types`.
pub(crate) fn slots(
    alloc: Global,
    uses: &Uses,
    types: &[u32],
    places: &[u32],
) -> Result<Vec<SlotForm>, AllocError>
    ensures { IfOk result (λ found. AllZip (IsSlotAt uses.now types.now) places.now found.items) }
{
    let all = all_uses(alloc, uses, types)?;
    let by_place = Referrers::of(alloc, references(alloc, &all)?)?;
    slots_in_turn(alloc, uses, types, &all, &by_place, places)
}
