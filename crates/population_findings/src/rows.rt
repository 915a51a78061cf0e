//! The table of the instances of a file.

ghost use Rattle.std.specs.Prelude.{IfOk};
ghost use Rattle.conformance.specs.Entities.{Entities, AreEntities};
ghost use Rattle.schema_names.specs.Schemas.{the_schema};
ghost use Rattle.population_forms.specs.steps.Knowing.{AreKnown};
ghost use Rattle.population_findings.specs.steps.Rows.{AreRowsOf, rows_in};
ghost use Rattle.population_findings.specs.steps.Making.{AreMade, MakeForms};

use crate::forms::Made;
use crate::keywords::Recent;
use population_forms::knowledge::Knowledge;
use population_rows::index::RowIndex;
use population_rows::rows::Rows;
use std::alloc::{AllocError, Global};
use std::hash::RandomState;
use step_exchange::structure::Exchange;
use step_records::param::Params;

/// Row numbers have 32 bits, so there are at most this many rows. No file that is read has more.
const MOST_ROWS: usize = 4_294_967_295;

/// Returns the numbers of the forms of `instances`, in order; `None` for an instance with a keyword
/// that isn't an entity.
fn forms_of(
    known: &Knowledge<'_, '_, '_>,
    made: &mut Made,
    alloc: Global,
    instances: &Params<'_, '_>,
) -> Result<Vec<Option<u32>>, AllocError>
    requires known { AreKnown known.now }
    requires made { AreMade (the_schema known.now.names.now) made.old }
    ensures { IfOk result (λ v. MakeForms (the_schema known.now.names.now) instances.now made.new
        v.items) }
{
    let mut form_of = Vec::with_capacity(alloc, instances.len())?;
    let mut recent = Recent::new(alloc)?;
    let mut entities = Vec::new(alloc);
    for i in 0..instances.len() {
        form_of.push(made.form(
            alloc,
            known,
            &mut recent,
            &mut entities,
            &instances.at(i).parts(),
        )?)?;
    }
    Ok(form_of)
}

/// Returns the table of the instances of a file. Names and keywords are hashed by `keys`. Fails if
/// there are more than 2^32 - 1 instances.
pub fn rows_of(
    alloc: Global,
    keys: RandomState,
    known: &Knowledge<'_, '_, '_>,
    exchange: &Exchange<'_>,
) -> Result<Rows, AllocError>
    requires known { AreKnown known.now }
    ensures { IfOk result (λ t. (en : Entities) → AreEntities (the_schema known.now.names.now) en
        → AreRowsOf (the_schema known.now.names.now) en (rows_in exchange.now) t) }
{
    let names = exchange.names.as_slice();
    if names.len() > MOST_ROWS {
        return Err(AllocError);
    }
    let index = RowIndex::of(alloc, keys, names)?;
    let (_, instances) = exchange.trees.trees().split(exchange.header_len);
    let mut made = Made::new(alloc, keys, known.names.len())?;
    let form_of = forms_of(known, &mut made, alloc, &instances)?;
    let Made { forms, types, .. } = made;
    Ok(Rows {
        index,
        form_of,
        forms,
        types,
    })
}
