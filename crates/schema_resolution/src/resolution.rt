//! Resolving the names of a schema, with the findings for its rules and derived attributes
//! (ISO 10303-11, 8, 9 and 10).

ghost use Rattle.std.specs.Prelude.{◌≡◌, IfOk, MatchResult};
ghost use Rattle.express_syntax.specs.SchemaViews.{schema_of};
ghost use Rattle.schema_semantics.specs.Faults.{IsResolved};
ghost use Rattle.schema_types.specs.TypeTables.{IsMade};
ghost use Rattle.schema_types.specs.Resolution.{IsNameFault};
ghost use Rattle.schema_resolution.specs.SoundGraphs.{IsSound};

use crate::findings::{Found, judge};
use crate::resolved_schema::ResolvedSchema;
use express_syntax::fault::SchemaFault;
use express_syntax::tree::SchemaTree;
use schema_types::resolution::resolve_types;
use schema_types::types::ResolvedTypes;
use std::alloc::{AllocError, Global};
use std::hash::RandomState;

/// Returns the resolved schema with these types. Names are hashed with `keys`.
fn type_graph<'t, 'a>(
    alloc: Global,
    keys: RandomState,
    types: ResolvedTypes<'a, 't>,
) -> Result<ResolvedSchema<'a, 't>, AllocError>
    requires { IsMade types }
    ensures same { IfOk result (λ g. g.types ≡ types.entry) }
    ensures sound { IfOk result IsSound }
{
    let Found {
        judged,
        domain,
        rules,
    } = judge(alloc, keys, &types)?;
    Ok(ResolvedSchema {
        types,
        judged,
        domain,
        rules,
    })
}

/// Returns the resolution of `schema` if its names are resolved (ISO 10303-11, 8, 9 and 10).
///
/// Names are hashed with `keys`, which the author of the schema must not know.
///
/// # Errors
/// The first of these that applies to the schema, at the first name in the text to which it
/// applies:
/// * `UnknownName`: a name doesn't refer to what its context requires.
/// * `DuplicateName`: a name is declared already in its scope.
/// * `SupertypeCycle`: an entity is its own supertype.
/// * `TypeCycle`: a defined type is made of itself.
///
/// `Memory` means that memory ran out. A `Text` fault is never returned.
pub fn resolve<'t, 'a>(
    alloc: Global,
    keys: RandomState,
    schema: &'t SchemaTree<'a>,
) -> Result<ResolvedSchema<'a, 't>, SchemaFault>
    ensures resolved { MatchResult result (λ g. IsResolved (schema_of schema.entry.now))
        (IsNameFault (schema_of schema.entry.now)) }
    ensures same { IfOk result (λ g. g.types.names.schema.now ≡ schema.entry.now) }
    // The tables are those of the schema: its types, its rules that apply to a whole population,
    // its evaluated parts, and the numbers of its first derived attributes.
    ensures sound { IfOk result IsSound }
{
    let types = resolve_types(alloc, keys, schema)?;
    match type_graph(alloc, keys, types) {
        Ok(graph) => Ok(graph),
        Err(_) => Err(SchemaFault::Memory),
    }
}
