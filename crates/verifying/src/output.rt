//! Comparing an output with the merged input.

ghost use Rattle.std.specs.Prelude.{◌↔◌, IfOk, IsTrue, Ok};
ghost use Rattle.conformance.specs.OtherNames.{other_names};
ghost use Rattle.schema_names.specs.Schemas.{the_schema};
ghost use Rattle.schema_types.specs.TypeTables.{IsMade};
ghost use Rattle.step_exchange.specs.Exchanges.{structure};
ghost use Rattle.value_equality.specs.Images.{quotient};
ghost use Rattle.value_equality.specs.Rows.{SamePopulation};
ghost use Rattle.value_equality.specs.Tables.{shares};
ghost use Rattle.value_equality.specs.TableViews.{table_of};
ghost use Rattle.step_headings.specs.steps.Views.{AreHeadingsOf};
ghost use Rattle.population_forms.specs.steps.Tables.{AreTables};
ghost use Rattle.typed_populations.specs.PopulationViews.{population_seen};
ghost use Rattle.verifying.specs.steps.ComputedPassing.{
  AnswersClean,
  AnswersOutput,
  AnswersTyped,
  IsReady,
};

use crate::fault::TablesFault;
use crate::proof::Proof;
use crate::tables::Judged;
use certificate_checks::quotient::is_merged;
use file_findings::rows::plain_rows;
use files::fault::{FileFault, Role};
use merge_theorems::merged_file_laws::checks_prove;
use population_forms::tables::SchemaTables;
use population_reader::populate::{Verdict, populate_by};
use reports::fault::{Fault, of_file};
use reports::refusal::Refusal;
use resources::Resources;
use schema_types::types::ResolvedTypes;
use std::alloc::{AllocError, Global};
use step_exchange::exchange::read_exchange;
use step_exchange::structure::Exchange;
use step_headings::headings::Headings;
use typed_populations::population::Population;
use value_equality::plain::Plain;

/// Whether an output with these rows is the input with the classes of its table merged, under these
/// headings.
fn is_image<'a, 'r, 'b, 'q>(
    alloc: Global,
    headings: &Headings<'a>,
    judged: &Judged<'r>,
    output: &Exchange<'b>,
    rows: &Plain<'q>,
) -> Result<bool, AllocError>
    requires { IsReady judged.now }
    ensures { IfOk result (λ b. IsTrue b ↔ (SamePopulation rows.now
        (quotient judged.now.rows (shares (table_of judged.now.table) judged.now.table.rounds))
        × AreHeadingsOf headings.now (structure output.now))) }
{
    if !is_merged(alloc, &judged.rows, &judged.table, rows)? {
        return Ok(false);
    }
    Ok(headings.are_those_of(output))
}

/// Compares an output that has this population with the merged input. The tables of the certificate
/// hold.
fn compare<'s: 'a, 't, 'r, 'a, 'b, 'q>(
    alloc: Global,
    population: Population<'s, 't, 'r, 'a>,
    headings: &Headings<'b>,
    judged: &Judged<'q>,
) -> Result<Proof, TablesFault>
    requires { IsReady judged.now }
    ensures { AnswersTyped (the_schema population.entry.types.now.names)
        headings.now (Ok judged.now) (structure population.entry.exchange.now)
        (population_seen population.entry) result }
{
    let output = population.exchange;
    let rows = plain_rows(alloc, population)?;
    let instances = judged.rows.len() as u64;
    let kept = rows.len() as u64;
    if !is_image(alloc, headings, judged, output, &rows)? {
        return Err(TablesFault::Refused(Refusal::NotTheImage));
    }
    Ok(Proof {
        instances,
        kept,
        rounds: judged.table.rounds,
    })
}

/// Returns the proof of an output that has this population, or else what is wrong with the tables
/// of its certificate.
fn answer<'s: 'a, 't, 'r, 'a, 'b, 'q>(
    alloc: Global,
    population: Population<'s, 't, 'r, 'a>,
    headings: &Headings<'b>,
    judged: &Result<Judged<'q>, TablesFault>,
) -> Result<Proof, TablesFault>
    requires { IfOk judged.now IsReady }
    ensures { AnswersTyped (the_schema population.entry.types.now.names)
        headings.now judged.now (structure population.entry.exchange.now)
        (population_seen population.entry) result }
{
    match judged {
        Ok(judged) => compare(alloc, population, headings, judged),
        Err(fault) => Err(*fault),
    }
}

/// Verifies an output that reads as this structure.
fn verify_image<'s: 'a, 't, 'r, 'a, 'b, 'q>(
    resources: Resources,
    types: &'r ResolvedTypes<'s, 't>,
    tables: &SchemaTables,
    image: &'r Exchange<'a>,
    headings: &Headings<'b>,
    judged: &Result<Judged<'q>, TablesFault>,
) -> Result<Proof, Fault<'s>>
    requires made { IsMade types.now }
    requires tables { AreTables types.now tables.now }
    requires ready { IfOk judged.now IsReady }
    ensures { AnswersOutput (the_schema types.entry.now.names)
        (other_names types.entry.now.names.schema.now) headings.now
        judged.now result (structure image.entry.now) }
{
    checks_prove();
    let verdict = populate_by(resources.alloc, resources.keys, types, tables, image)?;
    match verdict {
        Verdict::Typed(population) => {
            let proof = answer(resources.alloc, population, headings, judged)?;
            Ok(proof)
        }
        Verdict::Faulty(findings) => Err(Fault::Refused {
            role: Role::Output,
            findings,
            rules: Vec::new(resources.alloc),
        }),
    }
}

/// Verifies an output. The input has no findings, its sections have these headings, and the tables
/// of the certificate are judged so.
pub(crate) fn verify_output<'s>(
    resources: Resources,
    types: &ResolvedTypes<'s, '_>,
    tables: &SchemaTables,
    headings: &Headings<'_>,
    judged: &Result<Judged<'_>, TablesFault>,
    output: &[u8],
) -> Result<Proof, Fault<'s>>
    requires made { IsMade types.now }
    requires tables { AreTables types.now tables.now }
    requires ready { IfOk judged.now IsReady }
    ensures { AnswersClean (the_schema types.now.names) (other_names types.now.names.schema.now)
        headings.now judged.now result output.now }
{
    match read_exchange(resources.alloc, resources.keys, output) {
        Ok(image) => verify_image(resources, types, tables, &image, headings, judged),
        Err(fault) => Err(of_file(FileFault::of_text(Role::Output, fault))),
    }
}
