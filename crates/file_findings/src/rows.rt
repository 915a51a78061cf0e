//! The rows of a population.

ghost use Rattle.std.specs.Prelude.{IfOk};
ghost use Rattle.conformance.specs.PlainRows.{AreRowsOf};
ghost use Rattle.value_equality.specs.Rows.{IsPopulation};
ghost use Rattle.schema_names.specs.Schemas.{the_schema};
ghost use Rattle.typed_populations.specs.PopulationViews.{population_seen};

use std::alloc::{AllocError, Global};
use typed_populations::population::Population;
use value_equality::plain::Plain;

/// Returns the rows of `population`, which is consumed.
pub fn plain_rows<'s: 'a, 't, 'r, 'a>(
    alloc: Global,
    population: Population<'s, 't, 'r, 'a>,
) -> Result<Plain<'a>, AllocError>
    ensures rows { IfOk result (λ p. AreRowsOf
        (the_schema population.entry.types.now.names) (population_seen population.entry) p) }
    ensures population { IfOk result (λ p. IsPopulation p) }
{
    let rows = population.into_plain(alloc)?;
    // The contract of `len` states that no name occurs twice and that each reference names a row.
    let _count = rows.len();
    Ok(rows)
}
