//! Entities that are their own supertypes, and defined types that are made of themselves.

ghost use Rattle.std.specs.Prelude.{◌≡◌, length, IfOk};
ghost use Rattle.graphs.specs.Graphs.{IsGraph, graph_of};
ghost use Rattle.express_syntax.specs.declared.fault.NameFault.TheVariants.{
  SupertypeCycle,
  TypeCycle,
};
ghost use Rattle.schema_names.specs.Schemas.{the_schema};
ghost use Rattle.schema_faults.specs.steps.Shown.{IsShown};
ghost use Rattle.schema_faults.specs.steps.FirstNamed.{IsFirstNamed};

use graphs::cycles::first_cyclic;
use schema_names::declaration_graphs::{part_graph, supertype_graph};
use schema_names::names::Names;
use std::alloc::{AllocError, Global};
use step_literals::literal::Word;

/// Returns the name of the first declaration on a cycle of the graph, if any.
fn first_named<'a>(
    alloc: Global,
    names: &Names<'a, '_>,
    edges: &[Vec<u32>],
) -> Result<Option<Word<'a>>, AllocError>
    requires graph { IsGraph (graph_of edges.now) }
    requires same { length edges.now ≡ length names.now.schema.now.declarations.items }
    ensures { IfOk result (IsFirstNamed (the_schema names.now) (graph_of edges.now)) }
{
    match first_cyclic(alloc, edges)? {
        Some(number) => Ok(names.name(number)),
        None => Ok(None),
    }
}

/// Returns the first entity, in the order of the text, that is a proper supertype of itself, if any
/// (ISO 10303-11, 9.2.3).
///
/// Without such an entity, the search takes time proportional to the count of declarations and of
/// names in SUBTYPE OF. Otherwise, there is in addition one search from each entity that reaches a
/// cycle, up to the first entity on a cycle.
pub fn first_own_supertype<'a>(
    alloc: Global,
    names: &Names<'a, '_>,
) -> Result<Option<Word<'a>>, AllocError>
    ensures { IfOk result (IsShown (the_schema names.now) SupertypeCycle) }
{
    let supertypes = supertype_graph(alloc, names)?;
    first_named(alloc, names, &supertypes)
}

/// Returns the first defined type, in the order of the text, that is made of itself, if any
/// (ISO 10303-11, 8.3.2 and 8.4.2).
///
/// Without such a type, the search takes time proportional to the count of declarations and of
/// names of which types are made. Otherwise, there is in addition one search from each type that
/// reaches a cycle, up to the first type on a cycle.
pub fn first_own_part<'a>(
    alloc: Global,
    names: &Names<'a, '_>,
) -> Result<Option<Word<'a>>, AllocError>
    ensures { IfOk result (IsShown (the_schema names.now) TypeCycle) }
{
    let parts = part_graph(alloc, names)?;
    first_named(alloc, names, &parts)
}
