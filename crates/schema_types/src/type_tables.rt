//! The tables of the types of a schema.

ghost use Rattle.std.specs.Prelude.{◌≡◌, IfOk};
ghost use Rattle.graphs.specs.Graphs.{graph_of};
ghost use Rattle.graphs.specs.Closures.{IsClosure};
ghost use Rattle.schema_semantics.specs.Faults.{IsResolved};
ghost use Rattle.schema_names.specs.Edges.{IsGraphOf, supertypes_in};
ghost use Rattle.schema_names.specs.Schemas.{the_schema};
ghost use Rattle.schema_types.specs.TypeTables.{IsMade};

use crate::types::ResolvedTypes;
use schema_explicit_attributes::places::attribute_places;
use schema_names::names::Names;
use std::alloc::{AllocError, Global};

/// Returns the types of a schema whose names are resolved. `supertypes` is the graph of SUBTYPE OF,
/// and `above` its closure.
pub(crate) fn make_types<'t, 'a>(
    alloc: Global,
    names: Names<'a, 't>,
    supertypes: &[Vec<u32>],
    above: Vec<Vec<u32>>,
) -> Result<ResolvedTypes<'a, 't>, AllocError>
    requires resolved { IsResolved (the_schema names) }
    requires drawn { IsGraphOf (the_schema names) supertypes_in (graph_of supertypes.now) }
    requires closed { IsClosure (graph_of supertypes.now) (graph_of above.items) }
    ensures same { IfOk result (λ g. g.names.schema.now ≡ names.entry.schema.now) }
    ensures made { IfOk result IsMade }
{
    let places = attribute_places(alloc, &names, supertypes)?;
    Ok(ResolvedTypes {
        names,
        above,
        places,
    })
}
