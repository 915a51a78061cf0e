//! Whether an exchange structure conforms to a schema, and its population.

ghost use Rattle.std.specs.Prelude.{IfOk};
ghost use Rattle.schema_types.specs.TypeTables.{IsMade};
ghost use Rattle.population_forms.specs.steps.Tables.{AreTables};
ghost use Rattle.population_reader.specs.Verdicts.{IsVerdict};

use crate::instance_values::values_of;
use conformance::finding::Finding;
use population_findings::findings::findings;
use population_findings::rows::rows_of;
use population_forms::forms::entities_are_said;
use population_forms::tables::SchemaTables;
use schema_types::types::ResolvedTypes;
use std::alloc::{AllocError, Global};
use std::hash::RandomState;
use step_exchange::structure::Exchange;
use typed_populations::population::Population;

/// The result of checking an exchange structure against a schema.
#[derive(Drop)]
pub enum Verdict<'s, 't, 'r, 'a> {
    /// The population of a structure that conforms to the schema, rules aside.
    Typed(Population<'s, 't, 'r, 'a>),
    /// The findings of a structure that doesn't conform, in order; at least one.
    Faulty(Vec<Finding>),
}

/// Checks `exchange` against the schema whose resolved types are `types` and whose tables are
/// `tables`. Returns its population if there are no findings (ISO 10303-21, 11), otherwise the
/// findings in order. Rules aren't checked. Names are hashed by `keys`.
pub fn populate_by<'r, 't, 's, 'a>(
    alloc: Global,
    keys: RandomState,
    types: &'r ResolvedTypes<'s, 't>,
    tables: &SchemaTables,
    exchange: &'r Exchange<'a>,
) -> Result<Verdict<'s, 't, 'r, 'a>, AllocError>
    requires made { IsMade types.now }
    requires tables { AreTables types.now tables.now }
    ensures { IfOk result (IsVerdict types.now exchange.now) }
{
    let known = tables.knowledge(&*types);
    let bases = tables.bases(&*types);
    entities_are_said(&known);
    let rows = rows_of(alloc, keys, &known, &*exchange)?;
    let found = findings(alloc, &known, &bases, &rows, &*exchange)?;
    let wrong = found.len();
    if wrong > 0 {
        return Ok(Verdict::Faulty(found));
    }
    let values = values_of(alloc, &bases, &rows, exchange)?;
    Ok(Verdict::Typed(Population {
        types,
        exchange,
        rows,
        values,
    }))
}

/// Checks `exchange` against the schema whose resolved types are `types`. Returns its population if
/// there are no findings (ISO 10303-21, 11), otherwise the findings in order. Rules aren't checked.
/// Names are hashed by `keys`.
pub fn populate<'r, 't, 's, 'a>(
    alloc: Global,
    keys: RandomState,
    types: &'r ResolvedTypes<'s, 't>,
    exchange: &'r Exchange<'a>,
) -> Result<Verdict<'s, 't, 'r, 'a>, AllocError>
    requires made { IsMade types.now }
    ensures { IfOk result (IsVerdict types.now exchange.now) }
{
    let tables = SchemaTables::of(alloc, &*types)?;
    populate_by(alloc, keys, types, &tables, exchange)
}
