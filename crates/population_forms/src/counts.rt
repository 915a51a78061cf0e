//! Counts how often the types of an instance violate the constraints of the schema on subtypes
//! (ISO 10303-11, 9.2.4 and 9.2.5).

ghost use Rattle.std.specs.Prelude.{◌≡◌, ◌&&◌, not, Some};
ghost use Rattle.std.specs.List.{find};
ghost use Rattle.std.specs.List.Sorted.{IsNonDecreasing};
ghost use Rattle.graphs.specs.Graphs.{graph_of, has};
ghost use Rattle.conformance.specs.Entities.{how_many};
ghost use Rattle.schema_names.specs.Schemas.{the_schema};
ghost use Rattle.population_forms.specs.steps.Marked.{has_another, has_two, is_abstract_at};

use crate::sorted_rows::contains;
use express_syntax::tree::Declaration;
use schema_names::names::Names;

/// Whether the declaration numbered `number` is an ABSTRACT entity.
fn is_abstract(names: &Names<'_, '_>, number: u32) -> bool
    ensures { result ≡ is_abstract_at (the_schema names.now) number }
{
    match names.at(number) {
        Some(Declaration::Entity(entity)) => entity.is_abstract,
        _ => false,
    }
}

/// Returns how many of `types` are ABSTRACT and have no subtype among `types`. `supertypes` lists
/// the proper supertypes of all `types`.
pub(crate) fn abstract_leaves(names: &Names<'_, '_>, types: &[u32], supertypes: &[u32]) -> usize
    ensures { IsNonDecreasing supertypes.now → result
        ≡ how_many (λ i. not (has supertypes.now i)
        && is_abstract_at (the_schema names.now) i) types.now }
{
    types
        .iter()
        .filter(|number| !contains(supertypes, **number) && is_abstract(names, **number))
        .count()
}

/// Returns how many of `numbers` aren't in `row`.
pub(crate) fn numbers_outside(row: &[u32], numbers: &[u32]) -> usize
    ensures { IsNonDecreasing row.now → result
        ≡ how_many (λ i. not (has row.now i)) numbers.now }
{
    numbers
        .iter()
        .filter(|number| !contains(row, **number))
        .count()
}

/// Returns the first of `numbers` that is in `row`, if any.
fn first_in(row: &[u32], numbers: &[u32]) -> Option<u32>
    ensures { IsNonDecreasing row.now → result ≡ find (has row.now) numbers.now }
{
    numbers
        .iter()
        .find(|number| contains(row, **number))
        .copied()
}

/// Whether one of `numbers` is in `row` and differs from `first`.
fn has_another(row: &[u32], numbers: &[u32], first: u32) -> bool
    ensures { IsNonDecreasing row.now
        → result ≡ has_another row.now numbers.now (Some first) }
{
    numbers
        .iter()
        .any(|number| *number != first && contains(row, *number))
}

/// Whether two different elements of `numbers` are in `row`.
fn has_two(row: &[u32], numbers: &[u32]) -> bool
    ensures { IsNonDecreasing row.now → result ≡ has_two row.now numbers.now }
{
    match first_in(row, numbers) {
        Some(first) => has_another(row, numbers, first),
        None => false,
    }
}

/// Returns how many of `rows` have two different elements in `row`.
pub(crate) fn rows_with_two(row: &[u32], rows: &[Vec<u32>]) -> usize
    ensures { IsNonDecreasing row.now
        → result ≡ how_many (has_two row.now) (graph_of rows.now) }
{
    rows.iter().filter(|each| has_two(row, each)).count()
}
