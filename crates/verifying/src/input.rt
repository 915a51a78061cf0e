//! The input, which must have no findings.

ghost use Rattle.std.specs.Prelude.{IfOk};
ghost use Rattle.conformance.specs.OtherNames.{other_names};
ghost use Rattle.schema_names.specs.Schemas.{the_schema};
ghost use Rattle.schema_resolution.specs.SoundGraphs.{IsSound};
ghost use Rattle.step_exchange.specs.Exchanges.{structure};
ghost use Rattle.population_forms.specs.steps.Tables.{AreTables};
ghost use Rattle.verifying.specs.steps.ComputedPassing.{
  AnswersRead,
  AnswersSettled,
  Finds,
  IsReady,
};

use crate::fault::TablesFault;
use crate::output::verify_output;
use crate::proof::Proof;
use crate::tables::{Judged, judge_certificate};
use file_findings::checked_file::{Checked, conforming};
use file_findings::findings::Found;
use file_findings::laws::conforms_where_nothing_is_found;
use files::fault::{FileFault, Role};
use merge_choices::choice::Chosen;
use population_forms::tables::SchemaTables;
use reports::fault::{Fault, of_file};
use resources::Resources;
use rule_outcomes::report::RuleReport;
use schema_resolution::resolved_schema::ResolvedSchema;
use step_exchange::exchange::read_exchange;
use step_exchange::structure::Exchange;
use step_headings::headings::Headings;

/// The texts of an output and of its certificate.
#[derive(Drop)]
pub(crate) struct Claim<'o> {
    pub output: &'o [u8],
    pub certificate: Vec<u8>,
}

/// Checks an input that reads as this structure, and judges the tables of the certificate by it.
/// Everything else that this needed is freed.
fn judge_input<'r, 't, 's: 'a, 'a: 'r>(
    resources: Resources,
    graph: &'r ResolvedSchema<'s, 't>,
    tables: &'r SchemaTables,
    chosen: &Chosen,
    exchange: &'r Exchange<'a>,
    certificate: Vec<u8>,
) -> Result<Result<Judged<'a>, TablesFault>, Fault<'s>>
    requires sound { IsSound graph.now }
    requires tables { AreTables graph.now.types tables.now }
    ensures finds { Finds (the_schema graph.entry.now.types.names)
        (other_names graph.entry.now.types.names.schema.now) certificate.items result
        chosen.now (structure exchange.entry.now) }
    ensures ready { IfOk result (λ judged. IfOk judged IsReady) }
{
    conforms_where_nothing_is_found();
    let checked = conforming(resources, graph, tables, chosen, exchange)?;
    match checked {
        Checked::Clean { weak, rows, .. } => {
            Ok(judge_certificate(resources, rows, weak, certificate))
        }
        Checked::Faulty(found) => {
            let Found { findings, rules } = found;
            let RuleReport {
                findings: broken,
                ..
            } = rules;
            Err(Fault::Refused {
                role: Role::File,
                findings,
                rules: broken,
            })
        }
    }
}

/// Verifies an output if the input reads as this structure. The structure, except its headings, is
/// freed before the output is read.
fn verify_read<'r, 't, 's: 'a, 'a>(
    resources: Resources,
    graph: &'r ResolvedSchema<'s, 't>,
    tables: &'r SchemaTables,
    chosen: &Chosen,
    exchange: Exchange<'a>,
    claim: Claim<'_>,
) -> Result<Proof, Fault<'s>>
    requires sound { IsSound graph.now }
    requires tables { AreTables graph.now.types tables.now }
    ensures { AnswersRead (the_schema graph.entry.now.types.names)
        (other_names graph.entry.now.types.names.schema.now)
        claim.entry.output.now claim.entry.certificate.items result chosen.now
        (structure exchange.entry) }
{
    let Claim {
        output,
        certificate,
    } = claim;
    let judged = judge_input(resources, &*graph, &*tables, chosen, &exchange, certificate)?;
    let headings = Headings::of(exchange);
    verify_output(resources, &graph.types, tables, &headings, &judged, output)
}

/// Verifies an output by its certificate, according to a resolved schema and its chosen entity data
/// types.
pub(crate) fn verify_input<'s>(
    resources: Resources,
    graph: &ResolvedSchema<'s, '_>,
    chosen: &Chosen,
    input: &[u8],
    claim: Claim<'_>,
) -> Result<Proof, Fault<'s>>
    requires sound { IsSound graph.now }
    ensures { AnswersSettled (the_schema graph.now.types.names)
        (other_names graph.now.types.names.schema.now) claim.entry.output.now
        claim.entry.certificate.items result chosen.now input.now }
{
    let exchange = match read_exchange(resources.alloc, resources.keys, input) {
        Ok(exchange) => exchange,
        Err(fault) => return Err(of_file(FileFault::of_text(Role::File, fault))),
    };
    let tables = SchemaTables::of(resources.alloc, &graph.types)?;
    verify_read(resources, graph, &tables, chosen, exchange, claim)
}
