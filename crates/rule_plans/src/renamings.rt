//! Which defined types are defined by which, as a table with look-ups in constant time
//! (ISO 10303-11, 8.3.2).

ghost use Rattle.std.specs.Prelude.{◌≡◌, ◌<◌, ◌^◌, length, IfOk};
ghost use Rattle.graphs.specs.Graphs.{graph_of};
ghost use Rattle.schema_semantics.specs.Faults.{IsResolved};
ghost use Rattle.schema_names.specs.Schemas.{the_schema};
ghost use Rattle.schema_attribute_sources.specs.steps.Defined.{renamed_at};
ghost use Rattle.rule_plans.specs.steps.Renamings.{as_row, AreRenamings, TellsTypes};

use graphs::forest::Forest;
use schema_attribute_sources::defined_types::renamed;
use schema_names::names::Names;
use std::alloc::{AllocError, Global};

/// Returns the declaration by which the defined type numbered `number` is defined, if any, as a row
/// of a graph.
fn row_of(alloc: Global, names: &Names<'_, '_>, number: u32) -> Result<Vec<u32>, AllocError>
    requires { number < length names.now.schema.now.declarations.items }
    ensures { IfOk result (λ v. v.items ≡ as_row (renamed_at (the_schema names.now) number)) }
{
    let Some(other) = renamed(names, number) else {
        return Ok(Vec::new(alloc));
    };
    let mut row = Vec::new(alloc);
    row.push(other)?;
    Ok(row)
}

/// Returns the forest of `edges`, which has an edge from each declaration to the one by which it is
/// defined, if any.
pub(crate) fn forest_of(
    alloc: Global,
    names: &Names<'_, '_>,
    edges: &[Vec<u32>],
) -> Result<Forest, AllocError>
    requires resolved { IsResolved (the_schema names.now) }
    requires edges { AreRenamings (the_schema names.now) (graph_of edges.now) }
    ensures { IfOk result (TellsTypes (the_schema names.now)) }
{
    Forest::of(alloc, edges)
}

/// Returns, for each declaration, the one by which it is defined, if any, as the graph of a forest.
pub(crate) fn renamings(alloc: Global, names: &Names<'_, '_>) -> Result<Vec<Vec<u32>>, AllocError>
    ensures { IfOk result (λ t. AreRenamings (the_schema names.now) (graph_of t.items)) }
{
    let mut rows = Vec::with_capacity(alloc, names.len())?;
    for number in 0..names.len() {
        rows.push(row_of(alloc, names, number as u32)?)?;
    }
    Ok(rows)
}
