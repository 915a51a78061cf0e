//! Rows of numbers, some of them sorted.

ghost use Rattle.std.specs.Prelude.{◌≡◌, map, IfOk};
ghost use Rattle.std.specs.List.{concat};
ghost use Rattle.std.specs.List.Sorted.{IsNonDecreasing};
ghost use Rattle.graphs.specs.Graphs.{graph_of, has, next};
ghost use Rattle.population_forms.specs.steps.Marked.{AreSorted, is_above, is_kind};

use std::alloc::{AllocError, Global};

/// Returns the row at index `number`; empty if there is no such row.
pub(crate) fn row_at(rows: &[Vec<u32>], number: u32) -> &[u32]
    ensures { result.now ≡ next (graph_of rows.now) number }
{
    match rows.get(number as usize) {
        Some(row) => row,
        None => &[],
    }
}

/// Whether `number` is in `row`, which has to be sorted.
pub(crate) fn contains(row: &[u32], number: u32) -> bool
    ensures { IsNonDecreasing row.now → result ≡ has row.now number }
{
    row.binary_search(&number).is_ok()
}

/// Joins the rows at the indices `numbers`, in order.
pub(crate) fn joined_rows(
    alloc: Global,
    rows: &[Vec<u32>],
    numbers: &[u32],
) -> Result<Vec<u32>, AllocError>
    ensures { IfOk result (λ row. row.items
        ≡ concat (map (next (graph_of rows.now)) numbers.now)) }
{
    let mut joined = Vec::new(alloc);
    for number in numbers {
        joined.extend_from_slice(row_at(rows, *number))?;
    }
    Ok(joined)
}

/// Returns the numbers of `row` in rising order, each once.
fn sorted(row: Vec<u32>) -> Vec<u32>
    ensures { AreSorted (has row.items) result.items }
{
    let mut sorted = row;
    sorted.sort_unstable();
    sorted.dedup();
    sorted
}

/// Returns `numbers` in rising order, each once.
pub(crate) fn sorted_copy(alloc: Global, numbers: &[u32]) -> Result<Vec<u32>, AllocError>
    ensures { IfOk result (λ row. AreSorted (has numbers.now) row.items) }
{
    let mut row = Vec::new(alloc);
    row.extend_from_slice(numbers)?;
    Ok(sorted(row))
}

/// Returns `entity` and its proper supertypes in rising order, each once. `above` has the proper
/// supertypes of each entity.
pub(crate) fn kinds(alloc: Global, above: &[Vec<u32>], entity: u32) -> Result<Vec<u32>, AllocError>
    ensures { IfOk result (λ row. AreSorted (is_kind (graph_of above.now) entity) row.items) }
{
    let mut row = Vec::new(alloc);
    row.push(entity)?;
    row.extend_from_slice(row_at(above, entity))?;
    Ok(sorted(row))
}

/// Returns the proper supertypes of all `entities` in rising order, each once. `above` has the
/// proper supertypes of each entity.
pub(crate) fn all_above(
    alloc: Global,
    above: &[Vec<u32>],
    entities: &[u32],
) -> Result<Vec<u32>, AllocError>
    ensures { IfOk result (λ row.
        AreSorted (is_above (graph_of above.now) entities.now) row.items) }
{
    let row = joined_rows(alloc, above, entities)?;
    Ok(sorted(row))
}
