//! The data types of a schema and their requirements on values, by number.

ghost use Rattle.std.specs.Prelude.{◌≡◌, map, IfOk};
ghost use Rattle.graphs.specs.Graphs.{graph_of};
ghost use Rattle.schema_semantics.specs.Faults.{IsResolved};
ghost use Rattle.schema_names.specs.Edges.{IsGraphOf, parts_in};
ghost use Rattle.schema_names.specs.Numbers.{AreNumberRowsOf};
ghost use Rattle.schema_names.specs.Schemas.{the_schema};
ghost use Rattle.schema_data_types.specs.NumberedTypes.{form_in, whole_types, all_data_types};
ghost use Rattle.schema_underlying_types.specs.Tables.{AreBaseTypes};

use crate::base::Base;
use crate::declarations::declared_bases;
use crate::items::item_rows;
use crate::numbered_types::numbered_bases;
use schema_data_types::forms::DataTypes;
use schema_names::names::Names;
use std::alloc::{AllocError, Global};

/// The requirements of a schema's data types on values.
#[derive(Drop)]
pub struct BaseTypes {
    /// The bases by number of data type; INTEGER for one whose name isn't declared, which only a
    /// redeclared inverse attribute may have.
    pub by_number: Vec<Base>,
    /// By declaration, the base of a defined type or of an entity; INTEGER for other declarations.
    pub by_declaration: Vec<Base>,
    /// By declaration, for a SELECT, or a defined type that stands for one, the numbers of its
    /// items, those of nested SELECTs included, each once, in ascending order.
    pub items: Vec<Vec<u32>>,
}

/// Returns the bases of a schema whose names are resolved. `edges` is the graph of what defined
/// types are made of.
///
/// Takes time proportional to the count of declarations and data types, plus the time to sort the
/// items of each SELECT, those of nested SELECTs included.
///
/// # Errors
/// `AllocError` if memory runs out or there are too many data types for 32-bit numbers.
pub fn base_types(
    alloc: Global,
    names: &Names<'_, '_>,
    data_types: &DataTypes,
    edges: &[Vec<u32>],
) -> Result<BaseTypes, AllocError>
    requires resolved { IsResolved (the_schema names.now) }
    requires forms { data_types.now.forms.items ≡ map (form_in (the_schema names.now))
        (all_data_types (the_schema names.now)) }
    requires rows { AreNumberRowsOf whole_types (all_data_types (the_schema names.now))
        (the_schema names.now).declarations (graph_of data_types.now.rows.items) }
    requires drawn { IsGraphOf (the_schema names.now) parts_in (graph_of edges.now) }
    ensures { IfOk result (AreBaseTypes (the_schema names.now)) }
{
    let by_declaration = declared_bases(alloc, names, data_types, edges)?;
    let by_number = numbered_bases(alloc, names, &by_declaration)?;
    let items = item_rows(alloc, &by_declaration, edges)?;
    Ok(BaseTypes {
        by_number,
        by_declaration,
        items,
    })
}
