//! Merging an exchange structure according to its schema.

ghost use Rattle.std.specs.Prelude.{◌≡◌, ◌≤◌, ◌^◌, ℕ, List, [], false, length};
ghost use Rattle.schema_names.specs.Schemas.{the_schema};
ghost use Rattle.schema_resolution.specs.SoundGraphs.{IsSound};
ghost use Rattle.schema_semantics.specs.Names.{Name};
ghost use Rattle.conformance.specs.Choices.{MergeOptions};
ghost use Rattle.value_equality.specs.TableViews.{table_of};
ghost use Rattle.step_structures.specs.Texts.{ReadsAs};
ghost use Rattle.step_exchange.specs.Exchanges.{structure};
ghost use Rattle.merge_choices.specs.ChosenEntities.{AreOptionsOf};
ghost use Rattle.file_findings.specs.Findings.{AreFindings};
ghost use Rattle.checking.specs.Reporting.{IsReport};
ghost use Rattle.files.specs.declared.fault.Role.TheVariants as roles;
ghost use Rattle.reports.specs.Devices.{is_device};
ghost use Rattle.shrinking.specs.steps.ComputedAnswers.{FileShrinks};
ghost use Rattle.shrinking.specs.Shrinking.{IsClean, written_to};

use crate::summary::Summary;
use crate::write::write_both;
use devices::device::Sink;
use file_findings::findings::Found;
use file_findings::laws::conforms_where_nothing_is_found;
use merge_choices::choice::Chosen;
use merge_tables::file_merge::{Merging, last_of, merge_tables};
use merge_theorems::merged_file_laws::merges_are_least;
use reports::fault::{Fault, of_file};
use reports::report::Report;
use resources::Resources;
use rule_outcomes::report::RuleReport;
use schema_resolution::resolved_schema::ResolvedSchema;
use std::alloc::Global;
use step_exchange::structure::Exchange;
use value_equality::table::Table;

/// Returns the report on a file with these findings.
fn report<'s>(
    graph: ResolvedSchema<'s, '_>,
    found: Found<'s>,
    exchange: &Exchange<'_>,
) -> Report<'s>
    ensures report { (others : List Name) → AreFindings (the_schema graph.entry.types.names) others
        (structure exchange.now) found.entry.findings.items found.entry.rules.findings.items
        found.entry.rules.unknown
        → IsReport (the_schema graph.entry.types.names) others (structure exchange.now) result }
    ensures findings { result.findings ≡ found.entry.findings }
    ensures rules { result.rule_findings ≡ found.entry.rules.findings }
{
    let instances = exchange.names.len() as u64;
    let Found { findings, rules } = found;
    let RuleReport {
        findings: rule_findings,
        unknown,
    } = rules;
    Report {
        unchecked: graph.into_unchecked(),
        findings,
        rule_findings,
        instances,
        unknown,
    }
}

/// Returns the findings of a file that has none, with the number of UNKNOWN pairs of an instance
/// and a domain rule.
fn nothing_found<'s>(alloc: Global, unknown: u64) -> Found<'s>
    ensures findings { result.findings.items ≡ [] }
    ensures rules { result.rules.findings.items ≡ [] }
    ensures unknown { result.rules.unknown ≡ unknown }
{
    Found {
        findings: Vec::new(alloc),
        rules: RuleReport {
            findings: Vec::new(alloc),
            unknown,
        },
    }
}

/// Returns the summary of merging a file by the table that decides the merge.
fn summary<'s>(
    alloc: Global,
    graph: ResolvedSchema<'s, '_>,
    exchange: &Exchange<'_>,
    unknown: u64,
    second: &Table,
) -> Summary<'s>
    ensures report { (others : List Name) → AreFindings (the_schema graph.entry.types.names) others
        (structure exchange.now) [] [] unknown
        → IsReport (the_schema graph.entry.types.names) others (structure exchange.now)
        result.report }
    ensures clean { IsClean result.report }
    ensures kept { result.kept ≡ length (table_of second.now).classes }
    ensures rounds { result.rounds ≡ (table_of second.now).rounds }
{
    let report = report(graph, nothing_found(alloc, unknown), exchange);
    Summary {
        report,
        kept: second.classes.len() as u64,
        rounds: second.rounds,
    }
}

/// Writes the smaller file of an exchange structure, and its certificate, if the file has no
/// findings.
pub(crate) fn shrink_exchange<'s: 'a, 'a, O: Sink, C: Sink>(
    resources: Resources,
    graph: ResolvedSchema<'s, '_>,
    chosen: &Chosen,
    exchange: &Exchange<'a>,
    out: &mut O,
    certificate: &mut C,
) -> Result<Summary<'s>, Fault<'s>>
    requires sound { IsSound graph }
    ensures shrinks { (those : MergeOptions)
        → AreOptionsOf graph.entry.types.names those chosen.now
        → (bytes : List ℕ) → length bytes ≤ 2 ^ 40
        → ReadsAs bytes exchange.now.header_bytes.now (structure exchange.now)
        → FileShrinks (the_schema graph.entry.types.names) those bytes
        (written_to O.held out.old out.new) (written_to C.held certificate.old certificate.new)
        result }
    ensures no_schema_fault { is_device roles.Schema result ≡ false }
    ensures no_file_fault { is_device roles.File result ≡ false }
    ensures output_fault { O.has_failed out.old ≡ false
        → O.has_failed out.new ≡ is_device roles.Output result }
    ensures certificate_fault { C.has_failed certificate.old ≡ false
        → C.has_failed certificate.new ≡ is_device roles.Certificate result }
{
    conforms_where_nothing_is_found();
    merges_are_least();
    let merging = match merge_tables(resources, &graph, chosen, exchange) {
        Ok(merging) => merging,
        Err(_) => return Err(Fault::Memory),
    };
    match merging {
        Merging::Faulty(found) => Err(Fault::Findings(report(graph, found, exchange))),
        Merging::Clean {
            unknown,
            first,
            second,
        } => {
            let last = last_of(&first, &second);
            let summary = summary(resources.alloc, graph, exchange, unknown, last);
            match write_both(resources, exchange, &first, last, out, certificate) {
                Ok(()) => Ok(summary),
                Err(fault) => Err(of_file(fault)),
            }
        }
    }
}
