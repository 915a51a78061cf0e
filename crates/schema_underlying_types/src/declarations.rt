//! The bases of declarations.

ghost use Rattle.std.specs.Prelude.{◌≡◌, ℕ, List, length, IfOk};
ghost use Rattle.graphs.specs.Graphs.{graph_of};
ghost use Rattle.graphs.specs.Orders.{IsTopologicalOrder};
ghost use Rattle.schema_semantics.specs.Faults.{IsResolved};
ghost use Rattle.schema_names.specs.Edges.{IsGraphOf, parts_in};
ghost use Rattle.schema_names.specs.Numbers.{AreNumberRowsOf};
ghost use Rattle.schema_names.specs.Schemas.{the_schema};
ghost use Rattle.schema_data_types.specs.NumberedTypes.{whole_types, all_data_types};
ghost use Rattle.schema_underlying_types.specs.BaseEntries.{AreMade};

use crate::base::Base;
use crate::base_entries::base_at;
use graphs::orders::order;
use schema_data_types::forms::DataTypes;
use schema_names::names::Names;
use std::alloc::{AllocError, Global};

/// Returns the bases of all declarations. They are computed in an order in which each defined type
/// comes after those that it is made of.
pub(crate) fn declared_bases(
    alloc: Global,
    names: &Names<'_, '_>,
    data_types: &DataTypes,
    edges: &[Vec<u32>],
) -> Result<Vec<Base>, AllocError>
    requires resolved { IsResolved (the_schema names.now) }
    requires rows { AreNumberRowsOf whole_types (all_data_types (the_schema names.now))
        (the_schema names.now).declarations (graph_of data_types.now.rows.items) }
    requires drawn { IsGraphOf (the_schema names.now) parts_in (graph_of edges.now) }
    ensures length { IfOk result (λ t. length t.items
        ≡ length (the_schema names.now).declarations) }
    ensures made { IfOk result (λ t. AreMade (the_schema names.now)
        (graph_of data_types.now.rows.items) t.items) }
    ensures ordered { IfOk result (λ t. (xs : List ℕ)
        × IsTopologicalOrder (graph_of edges.now) xs) }
{
    let order = order(alloc, edges)?;
    let mut declared = vec![in alloc; Base::Integer; edges.len()]?;
    for a in &order {
        let i = *a as usize;
        let declaration = names.declaration(*a);
        let base = base_at(names, &declared, &data_types.rows[i], *a, declaration)?;
        declared[i] = base;
    }
    Ok(declared)
}
