//! Resolving the names of a schema (ISO 10303-11, 8, 9 and 10).

ghost use Rattle.std.specs.Prelude.{◌≡◌, IfOk, MatchResult};
ghost use Rattle.std.specs.String.{string_bytes};
ghost use Rattle.graphs.specs.Graphs.{graph_of};
ghost use Rattle.graphs.specs.Closures.{IsClosure};
ghost use Rattle.express_syntax.specs.ExpressionViews.{capitals};
ghost use Rattle.express_syntax.specs.SchemaViews.{schema_of};
ghost use Rattle.schema_semantics.specs.Faults.{IsFault, IsResolved};
ghost use Rattle.schema_names.specs.Edges.{IsGraphOf, supertypes_in};
ghost use Rattle.schema_names.specs.Schemas.{the_schema};
ghost use Rattle.schema_explicit_attributes.specs.Supertypes.{AreAbove};
ghost use Rattle.schema_types.specs.TypeTables.{IsMade};
ghost use Rattle.schema_types.specs.Resolution.{IsFound, IsResolution, IsSaid, IsNameFault};

use crate::type_tables::make_types;
use crate::types::ResolvedTypes;
use express_syntax::fault::{NameFault, SchemaFault};
use express_syntax::tree::SchemaTree;
use graphs::closures::closure;
use schema_faults::cycles::{first_own_part, first_own_supertype};
use schema_faults::demands::check_demands;
use schema_faults::duplicates::first_duplicate;
use schema_names::capital_names::in_capitals;
use schema_names::declaration_graphs::supertype_graph;
use schema_names::names::Names;
use std::alloc::{AllocError, Global};
use std::hash::RandomState;
use step_literals::literal::Word;

/// A name and its fault.
#[derive(Clone, Copy)]
struct Faulty<'a> {
    kind: NameFault,
    name: Word<'a>,
}

/// Returns the fault that resolution reports, if any: the first kind that occurs, at its first name
/// in the text.
fn first_fault<'a>(
    alloc: Global,
    keys: RandomState,
    names: &Names<'a, '_>,
    above: &[Vec<u32>],
) -> Result<Option<Faulty<'a>>, AllocError>
    requires { AreAbove (the_schema names.now) (graph_of above.now) }
    ensures { IfOk result (IsFound (the_schema names.now)) }
{
    if let Err(name) = check_demands(names, above) {
        let kind = NameFault::UnknownName;
        return Ok(Some(Faulty { kind, name }));
    }
    if let Some(name) = first_duplicate(alloc, keys, names)? {
        let kind = NameFault::DuplicateName;
        return Ok(Some(Faulty { kind, name }));
    }
    if let Some(name) = first_own_supertype(alloc, names)? {
        let kind = NameFault::SupertypeCycle;
        return Ok(Some(Faulty { kind, name }));
    }
    if let Some(name) = first_own_part(alloc, names)? {
        let kind = NameFault::TypeCycle;
        return Ok(Some(Faulty { kind, name }));
    }
    Ok(None)
}

/// The result of resolving a schema: its types, or a name with its fault.
enum Resolution<'a, 't> {
    Resolved(ResolvedTypes<'a, 't>),
    Faulty(Faulty<'a>),
}

/// Returns the proper supertypes of each declaration if all names are resolved, otherwise the fault
/// that resolution reports.
fn above_or_fault<'a>(
    alloc: Global,
    keys: RandomState,
    names: &Names<'a, '_>,
    supertypes: &[Vec<u32>],
) -> Result<Result<Vec<Vec<u32>>, Faulty<'a>>, AllocError>
    requires graph { IsGraphOf (the_schema names.now) supertypes_in (graph_of supertypes.now) }
    ensures { IfOk result (λ found. MatchResult found (λ above. IsResolved (the_schema names.now)
        × IsClosure (graph_of supertypes.now) (graph_of above.items))
        (λ faulty. IsFault (the_schema names.now) faulty.kind (capitals faulty.name))) }
{
    let above = closure(alloc, supertypes)?;
    match first_fault(alloc, keys, names, &above)? {
        Some(faulty) => Ok(Err(faulty)),
        None => Ok(Ok(above)),
    }
}

/// Returns the types of `schema`, or the fault that resolution reports.
fn try_resolve<'t, 'a>(
    alloc: Global,
    keys: RandomState,
    schema: &'t SchemaTree<'a>,
) -> Result<Resolution<'a, 't>, AllocError>
    ensures { IfOk result (IsResolution schema.entry.now) }
{
    let names = Names::of(alloc, keys, schema)?;
    let supertypes = supertype_graph(alloc, &names)?;
    match above_or_fault(alloc, keys, &names, &supertypes)? {
        Ok(above) => {
            let types = make_types(alloc, names, &supertypes, above)?;
            Ok(Resolution::Resolved(types))
        }
        Err(faulty) => Ok(Resolution::Faulty(faulty)),
    }
}

/// Returns the fault with its name in capitals, or `Memory` if memory runs out.
fn name_fault(alloc: Global, faulty: Faulty<'_>) -> SchemaFault
    ensures { IsSaid faulty.entry.kind (capitals faulty.entry.name) result }
{
    match in_capitals(alloc, faulty.name) {
        Ok(name) => SchemaFault::Name {
            kind: faulty.kind,
            name,
        },
        Err(_) => SchemaFault::Memory,
    }
}

/// Returns the types of `schema` if its names are resolved (ISO 10303-11, 8, 9 and 10).
///
/// Names are hashed with `keys`, which the author of the schema must not know.
///
/// # Errors
/// The first of these that applies to the schema, at the first name in the text to which it
/// applies:
/// * `UnknownName`: a name doesn't refer to what its context requires.
/// * `DuplicateName`: a name is declared already in its scope.
/// * `SupertypeCycle`: an entity is its own supertype.
/// * `TypeCycle`: a defined type is made of itself.
///
/// `Memory` means that memory ran out. A `Text` fault is never returned.
pub fn resolve_types<'t, 'a>(
    alloc: Global,
    keys: RandomState,
    schema: &'t SchemaTree<'a>,
) -> Result<ResolvedTypes<'a, 't>, SchemaFault>
    ensures resolved { MatchResult result (λ t. IsResolved (schema_of schema.entry.now))
        (IsNameFault (schema_of schema.entry.now)) }
    ensures same { IfOk result (λ t. t.names.schema.now ≡ schema.entry.now) }
    // The tables are those of the schema.
    ensures made { IfOk result IsMade }
{
    match try_resolve(alloc, keys, schema) {
        Ok(Resolution::Resolved(types)) => Ok(types),
        Ok(Resolution::Faulty(faulty)) => Err(name_fault(alloc, faulty)),
        Err(_) => Err(SchemaFault::Memory),
    }
}
