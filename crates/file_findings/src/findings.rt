//! The findings of a file according to its schema.

ghost use Rattle.std.specs.Prelude.{◌≡◌, true, IfOk};
ghost use Rattle.conformance.specs.OtherNames.{other_names};
ghost use Rattle.schema_names.specs.Schemas.{the_schema};
ghost use Rattle.schema_resolution.specs.SoundGraphs.{IsSound};
ghost use Rattle.schema_types.specs.TypeTables.{IsMade};
ghost use Rattle.population_forms.specs.steps.Tables.{AreTables};
ghost use Rattle.step_exchange.specs.Exchanges.{structure};
ghost use Rattle.file_findings.specs.Findings.{AreFindings};
ghost use Rattle.file_findings.specs.steps.Ruling.{AreReady};
ghost use Rattle.file_findings.specs.steps.Sparing.{AreInstanceFindings, IsWithout};

use crate::rules::{found_by_rules, schema_is_said};
use conformance::finding::Finding;
use conformance::value_laws::no_findings_exactly_where_it_conforms;
use population_findings::findings::findings;
use population_findings::rows::rows_of;
use population_forms::tables::SchemaTables;
use population_reader::populate::{Verdict, populate_by};
use resources::Resources;
use rule_names::tables::SettingTables;
use rule_outcomes::report::{RuleReport, empty_report};
use schema_resolution::resolved_schema::ResolvedSchema;
use schema_types::types::ResolvedTypes;
use std::alloc::AllocError;
use step_exchange::structure::Exchange;

/// The findings of a file.
#[derive(Drop)]
pub struct Found<'s> {
    /// The faults of its instances one by one, in order.
    pub findings: Vec<Finding>,
    /// The findings of the schema's rules, which are tested only if `findings` is empty.
    pub rules: RuleReport<'s>,
}

/// Returns the findings of a file's instances one by one, in order. Names are hashed with the keys of `resources`.
fn instance_findings(
    resources: Resources,
    types: &ResolvedTypes<'_, '_>,
    tables: &SchemaTables,
    exchange: &Exchange<'_>,
) -> Result<Vec<Finding>, AllocError>
    requires made { IsMade types.now }
    requires tables { AreTables types.now tables.now }
    ensures { IfOk result (λ fs. AreInstanceFindings (the_schema types.now.names)
        (other_names types.now.names.schema.now) (structure exchange.now) fs.items) }
{
    let known = tables.knowledge(types);
    let bases = tables.bases(types);
    let rows = rows_of(resources.alloc, resources.keys, &known, exchange)?;
    findings(resources.alloc, &known, &bases, &rows, exchange)
}

/// Whether a schema has no rules that are tested at a population.
fn is_without(graph: &ResolvedSchema<'_, '_>) -> bool
    ensures { result ≡ true → IsWithout graph.now.rules graph.now.domain }
{
    graph.rules.uniques.is_empty()
        && graph.rules.inverses.is_empty()
        && graph.domain.rules.is_empty()
}

/// Returns the findings of a file if the schema has no rules. No population is built.
fn found_without_rules<'r, 't, 's: 'r>(
    resources: Resources,
    graph: &'r ResolvedSchema<'s, 't>,
    tables: &SchemaTables,
    settings: &SettingTables<'r, 's>,
    exchange: &'r Exchange<'_>,
) -> Result<Found<'s>, AllocError>
    requires ready { AreReady graph.now.types graph.now.rules graph.now.domain tables.now
        settings.now }
    requires without { IsWithout graph.now.rules graph.now.domain }
    ensures { IfOk result (λ x. AreFindings (the_schema graph.entry.now.types.names)
        (other_names graph.entry.now.types.names.schema.now) (structure exchange.entry.now)
        x.findings.items x.rules.findings.items x.rules.unknown) }
{
    schema_is_said(&graph.types, &graph.rules, &graph.domain, tables, settings);
    let findings = instance_findings(resources, &graph.types, tables, exchange)?;
    Ok(Found {
        findings,
        rules: empty_report(resources.alloc),
    })
}

/// Returns the findings of a file. Its population is built, and the rules are tested if the
/// instances have no faults one by one.
fn found_by_population<'r, 't, 's: 'r, 'a: 'r>(
    resources: Resources,
    graph: &'r ResolvedSchema<'s, 't>,
    tables: &SchemaTables,
    settings: &SettingTables<'r, 's>,
    exchange: &'r Exchange<'a>,
) -> Result<Found<'s>, AllocError>
    requires ready { AreReady graph.now.types graph.now.rules graph.now.domain tables.now
        settings.now }
    ensures { IfOk result (λ x. AreFindings (the_schema graph.entry.now.types.names)
        (other_names graph.entry.now.types.names.schema.now) (structure exchange.entry.now)
        x.findings.items x.rules.findings.items x.rules.unknown) }
{
    schema_is_said(&graph.types, &graph.rules, &graph.domain, tables, settings);
    no_findings_exactly_where_it_conforms();
    match populate_by(
        resources.alloc,
        resources.keys,
        &graph.types,
        tables,
        exchange,
    )? {
        Verdict::Typed(population) => Ok(Found {
            findings: Vec::new(resources.alloc),
            rules: found_by_rules(resources, graph, tables, settings, &population)?,
        }),
        Verdict::Faulty(findings) => Ok(Found {
            findings,
            rules: empty_report(resources.alloc),
        }),
    }
}

/// Returns the findings of a file, with the tables of its schema.
fn found_by_tables<'r, 't, 's: 'r, 'a: 'r>(
    resources: Resources,
    graph: &'r ResolvedSchema<'s, 't>,
    tables: &'r SchemaTables,
    exchange: &'r Exchange<'a>,
) -> Result<Found<'s>, AllocError>
    requires sound { IsSound graph.now }
    requires tables { AreTables graph.now.types tables.now }
    ensures { IfOk result (λ x. AreFindings (the_schema graph.entry.now.types.names)
        (other_names graph.entry.now.types.names.schema.now) (structure exchange.entry.now)
        x.findings.items x.rules.findings.items x.rules.unknown) }
{
    let settings = SettingTables::of(
        resources.alloc,
        resources.keys,
        &graph.types,
        &graph.rules.inverses,
        tables,
    )?;
    if is_without(graph) {
        return found_without_rules(resources, graph, tables, &settings, exchange);
    }
    found_by_population(resources, graph, tables, &settings, exchange)
}

/// Returns all findings of a file according to its schema: those of its instances one by one or, if
/// there are none, those of the schema's rules.
///
/// Names are hashed with the keys of `resources`.
pub fn file_findings<'s>(
    resources: Resources,
    graph: &ResolvedSchema<'s, '_>,
    exchange: &Exchange<'_>,
) -> Result<Found<'s>, AllocError>
    requires sound { IsSound graph.now }
    ensures { IfOk result (λ x. AreFindings (the_schema graph.now.types.names)
        (other_names graph.now.types.names.schema.now) (structure exchange.now)
        x.findings.items x.rules.findings.items x.rules.unknown) }
{
    let tables = SchemaTables::of(resources.alloc, &graph.types)?;
    found_by_tables(resources, graph, &tables, exchange)
}
