//! Explicit and inverse attributes sorted by name, for binary search.

ghost use Rattle.std.specs.Prelude.{◌≡◌, IfSome, slice_get, true};
ghost use Rattle.express_syntax.specs.ExpressionViews.{capitals};
ghost use Rattle.schema_explicit_attributes.specs.Places.{places_of};
ghost use Rattle.schema_constraints.specs.steps.Ordered.{is_place, IsPlaceAt};

use crate::inverses::InverseAttribute;
use schema_explicit_attributes::attributes::Place;
use std::alloc::{AllocError, Global};
use step_literals::literal::Word;

/// Returns the numbers below `count`. Fails if `count` is 2^32 or more.
fn numbers(alloc: Global, count: usize) -> Result<Vec<u32>, AllocError> {
    let Ok(count) = u32::try_from(count) else {
        return Err(AllocError);
    };
    (0..count).collect(alloc)
}

/// Returns the names of the entity and of the explicit attribute with this number, if any.
fn place_names<'a>(places: &[Place<'a, '_>], number: u32) -> Option<(Word<'a>, Word<'a>)> {
    match places.get(number as usize) {
        Some(place) => Some((*place.entity, *place.attribute)),
        None => None,
    }
}

/// Returns the numbers of the explicit attributes, sorted by the name of the entity, then by their
/// own.
///
/// Takes the time of a sort.
pub fn ordered_places(alloc: Global, places: &[Place<'_, '_>]) -> Result<Vec<u32>, AllocError> {
    let mut ordered = numbers(alloc, places.len())?;
    ordered.sort_unstable_by_key(|number| place_names(places, *number));
    Ok(ordered)
}

/// Whether the explicit attribute with this number is `name` of `entity`.
pub fn is_place(places: &[Place<'_, '_>], number: u32, entity: Word<'_>, name: Word<'_>) -> bool
    ensures { result ≡ is_place (capitals entity.entry, capitals name.entry)
        (slice_get (places_of places.now) number) }
{
    match places.get(number as usize) {
        Some(place) => *place.entity == entity && *place.attribute == name,
        None => false,
    }
}

/// Returns the index at which a binary search for the explicit attribute ends.
fn searched_place(
    places: &[Place<'_, '_>],
    ordered: &[u32],
    entity: Word<'_>,
    name: Word<'_>,
) -> usize {
    ordered.partition_point(|number| place_names(places, *number) < Some((entity, name)))
}

/// Returns the number of the explicit attribute `name` of `entity`, by a binary search in
/// `ordered`.
///
/// `None` proves nothing, since `ordered` isn't required to be sorted. Takes time logarithmic in
/// the count of attributes.
pub fn find_place(
    places: &[Place<'_, '_>],
    ordered: &[u32],
    entity: Word<'_>,
    name: Word<'_>,
) -> Option<u32>
    ensures { IfSome result
        (IsPlaceAt (places_of places.now) (capitals entity.entry, capitals name.entry)) }
{
    let Some(number) = ordered.get(searched_place(places, ordered, entity, name)) else {
        return None;
    };
    if is_place(places, *number, entity, name) {
        Some(*number)
    } else {
        None
    }
}

/// Returns the entity and the name of the inverse attribute with this number, if any.
fn inverse_names<'a>(inverses: &[InverseAttribute<'a>], number: u32) -> Option<(u32, Word<'a>)> {
    match inverses.get(number as usize) {
        Some(inverse) => Some((inverse.entity, inverse.name)),
        None => None,
    }
}

/// Returns the numbers of the inverse attributes, sorted by the number of the entity, then by name.
///
/// Takes the time of a sort.
pub fn ordered_inverses(
    alloc: Global,
    inverses: &[InverseAttribute<'_>],
) -> Result<Vec<u32>, AllocError> {
    let mut ordered = numbers(alloc, inverses.len())?;
    ordered.sort_unstable_by_key(|number| inverse_names(inverses, *number));
    Ok(ordered)
}

/// Returns the index at which a binary search for the inverse attribute ends.
fn searched_inverse(
    inverses: &[InverseAttribute<'_>],
    ordered: &[u32],
    entity: u32,
    name: Word<'_>,
) -> usize {
    ordered.partition_point(|number| inverse_names(inverses, *number) < Some((entity, name)))
}

/// Returns the number at which a binary search for the inverse attribute `name` of `entity` ends,
/// if any. The caller has to test whether it is that attribute.
///
/// Takes time logarithmic in the count of attributes.
pub fn find_inverse(
    inverses: &[InverseAttribute<'_>],
    ordered: &[u32],
    entity: u32,
    name: Word<'_>,
) -> Option<u32> {
    ordered
        .get(searched_inverse(inverses, ordered, entity, name))
        .copied()
}
