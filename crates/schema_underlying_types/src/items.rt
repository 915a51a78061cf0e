//! The items of SELECTs, those of nested SELECTs included.

ghost use Rattle.std.specs.Prelude.{◌≡◌, ℕ, ◌<◌, ◌^◌, length, IfOk};
ghost use Rattle.std.specs.List.Sorted.{IsNonDecreasing};
ghost use Rattle.graphs.specs.Graphs.{graph_of, next, has, IsGraph, IsAcyclic};
ghost use Rattle.schema_underlying_types.specs.BaseEntries.{is_select, is_select_at, opened, item_of, AreItems};

use crate::base::Base;
use crate::base_entries::entry;
use schema_data_types::edge_tables::gathered;
use std::alloc::{AllocError, Global};

/// Whether `base` is a SELECT.
fn is_select(base: Base) -> bool
    ensures { result ≡ is_select base }
{
    matches!(base, Base::Select(_))
}

/// Whether the declaration `number` is a SELECT or stands for one.
fn is_select_at(declared: &[Base], number: u32) -> bool
    ensures { result ≡ is_select_at declared.now number }
{
    is_select(entry(declared, number))
}

/// Returns `row` if the declaration `number` stands for a SELECT, otherwise an empty row.
fn opened_row(
    alloc: Global,
    declared: &[Base],
    number: u32,
    row: &[u32],
) -> Result<Vec<u32>, AllocError>
    ensures { IfOk result (λ v. v.items ≡ opened declared.now number row.now) }
{
    if is_select_at(declared, number) {
        Vec::from_slice(alloc, row)
    } else {
        Ok(Vec::new(alloc))
    }
}

/// Returns the edges of the declarations that stand for a SELECT.
fn opened(alloc: Global, declared: &[Base], edges: &[Vec<u32>]) -> Result<Vec<Vec<u32>>, AllocError>
    requires few { length edges.now < 2 ^ 32 }
    ensures length { IfOk result (λ t. length t.items ≡ length edges.now) }
    ensures rows { IfOk result (λ t. (i : ℕ)
        → next (graph_of t.items) i ≡ opened declared.now i (next (graph_of edges.now) i)) }
{
    let mut rows = Vec::new(alloc);
    for i in 0..edges.len() {
        let row = opened_row(alloc, declared, i as u32, &edges[i])?;
        rows.push(row)?;
    }
    Ok(rows)
}

/// Returns the number itself, unless the declaration stands for a SELECT.
fn own_row(alloc: Global, declared: &[Base], number: u32) -> Result<Vec<u32>, AllocError>
    ensures { IfOk result (λ v. v.items ≡ item_of declared.now number) }
{
    let mut row = Vec::new(alloc);
    if !is_select_at(declared, number) {
        row.push(number)?;
    }
    Ok(row)
}

/// Returns by declaration its own number, unless it stands for a SELECT.
fn own_rows(alloc: Global, declared: &[Base], count: usize) -> Result<Vec<Vec<u32>>, AllocError>
    requires few { count < 2 ^ 32 }
    ensures length { IfOk result (λ t. length t.items ≡ count) }
    ensures rows { IfOk result (λ t. (i : ℕ)
        → i < count → next (graph_of t.items) i ≡ item_of declared.now i) }
{
    let mut rows = Vec::new(alloc);
    for i in 0..count {
        let row = own_row(alloc, declared, i as u32)?;
        rows.push(row)?;
    }
    Ok(rows)
}

/// Returns `row`, sorted, if the declaration `number` stands for a SELECT, otherwise an empty row.
fn sorted_row(
    alloc: Global,
    declared: &[Base],
    number: u32,
    row: &[u32],
) -> Result<Vec<u32>, AllocError>
    ensures items { IfOk result (λ v. (j : ℕ)
        → has v.items j ≡ has (opened declared.now number row.now) j) }
    ensures sorted { IfOk result (λ v. IsNonDecreasing v.items) }
{
    let mut sorted = opened_row(alloc, declared, number, row)?;
    sorted.sort_unstable();
    Ok(sorted)
}

/// Returns by declaration the numbers of the items of a SELECT, those of nested SELECTs included.
///
/// Takes time proportional to the count of items that SELECTs take over from nested SELECTs, plus
/// the time to sort the items of each SELECT.
pub(crate) fn item_rows(
    alloc: Global,
    declared: &[Base],
    edges: &[Vec<u32>],
) -> Result<Vec<Vec<u32>>, AllocError>
    requires graph { IsGraph (graph_of edges.now) }
    requires acyclic { IsAcyclic (graph_of edges.now) }
    requires few { length edges.now < 2 ^ 32 }
    ensures { IfOk result (λ t. AreItems declared.now (graph_of edges.now) (graph_of t.items)) }
{
    let opened = opened(alloc, declared, edges)?;
    let own = own_rows(alloc, declared, edges.len())?;
    let found = gathered(alloc, &opened, &own, edges.len())?;
    let mut rows = Vec::new(alloc);
    for i in 0..found.len() {
        let row = sorted_row(alloc, declared, i as u32, &found[i])?;
        rows.push(row)?;
    }
    Ok(rows)
}
