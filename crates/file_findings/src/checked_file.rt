//! Checking a file before a merge: all its findings or, if there are none, the rows of its population and its
//! weak pins.

ghost use Rattle.std.specs.Prelude.{IfOk};
ghost use Rattle.conformance.specs.OtherNames.{other_names};
ghost use Rattle.schema_names.specs.Schemas.{the_schema};
ghost use Rattle.schema_resolution.specs.SoundGraphs.{IsSound};
ghost use Rattle.step_exchange.specs.Exchanges.{structure};
ghost use Rattle.population_forms.specs.steps.Tables.{AreTables};
ghost use Rattle.typed_populations.specs.PopulationViews.{population_seen};
ghost use Rattle.typed_populations.specs.TypedPopulations.{IsTyped};
ghost use Rattle.conformance.specs.SchemaMeanings.{Said};
ghost use Rattle.file_findings.specs.steps.Ruling.{AreReady};
ghost use Rattle.file_findings.specs.steps.Checking.{ChecksFile};

use crate::findings::Found;
use crate::rows::plain_rows;
use crate::rule_pins::{Ruled, ruled_by_population};
use crate::rules::schema_is_said;
use conformance::value_laws::no_findings_exactly_where_it_conforms;
use merge_choices::choice::Chosen;
use population_forms::tables::SchemaTables;
use population_pins::weak_pins::WeakPins;
use population_reader::populate::{Verdict, populate_by};
use resources::Resources;
use rule_names::tables::SettingTables;
use rule_outcomes::report::empty_report;
use schema_resolution::resolved_schema::ResolvedSchema;
use std::alloc::AllocError;
use step_exchange::structure::Exchange;
use typed_populations::population::Population;
use value_equality::plain::Plain;

/// The result of checking a file before a merge.
#[derive(Drop)]
pub enum Checked<'s, 'a> {
    /// The file has findings; these are all.
    Faulty(Found<'s>),
    /// The file has no findings.
    Clean {
        /// The number of pairs of an instance and a domain rule whose outcome is UNKNOWN, at most
        /// 2^64 - 1.
        unknown: u64,
        /// The instances that the weak rules pin, and the lists that the gentle rules need.
        weak: WeakPins,
        /// The rows of the file's population. They borrow from the texts of the file and the
        /// schema.
        rows: Plain<'a>,
    },
}

/// Tests the rules of the schema at a population whose instances have no faults one by one.
fn checked_by_population<'r, 't, 's: 'a, 'a: 'r>(
    resources: Resources,
    graph: &ResolvedSchema<'s, 't>,
    tables: &SchemaTables,
    settings: &SettingTables<'r, 's>,
    chosen: &Chosen,
    population: Population<'s, 't, 'r, 'a>,
) -> Result<Checked<'s, 'a>, AllocError>
    requires said { Said (the_schema population.types.now.names) }
    requires ready { AreReady population.types.now graph.now.rules graph.now.domain tables.now
        settings.now }
    requires typed { IsTyped (the_schema population.types.now.names)
        (other_names population.types.now.names.schema.now)
        (structure population.exchange.now) (population_seen population) }
    ensures { IfOk result (ChecksFile (the_schema population.entry.types.now.names)
        (other_names population.entry.types.now.names.schema.now)
        (structure population.entry.exchange.now) chosen.now) }
{
    no_findings_exactly_where_it_conforms();
    let ruled = ruled_by_population(resources, graph, tables, settings, chosen, &population)?;
    match ruled {
        Ruled::Broken(rules) => Ok(Checked::Faulty(Found {
            findings: Vec::new(resources.alloc),
            rules,
        })),
        Ruled::Kept { unknown, weak } => {
            let rows = plain_rows(resources.alloc, population)?;
            Ok(Checked::Clean {
                unknown,
                weak,
                rows,
            })
        }
    }
}

/// Checks a file with the tables of its schema.
fn checked_by_settings<'r, 't, 's: 'a, 'a: 'r>(
    resources: Resources,
    graph: &'r ResolvedSchema<'s, 't>,
    tables: &SchemaTables,
    settings: &SettingTables<'r, 's>,
    chosen: &Chosen,
    exchange: &'r Exchange<'a>,
) -> Result<Checked<'s, 'a>, AllocError>
    requires ready { AreReady graph.now.types graph.now.rules graph.now.domain tables.now
        settings.now }
    ensures { IfOk result (ChecksFile (the_schema graph.entry.now.types.names)
        (other_names graph.entry.now.types.names.schema.now)
        (structure exchange.entry.now) chosen.now) }
{
    schema_is_said(&graph.types, &graph.rules, &graph.domain, tables, settings);
    let verdict = populate_by(
        resources.alloc,
        resources.keys,
        &graph.types,
        tables,
        exchange,
    )?;
    match verdict {
        Verdict::Typed(population) => {
            checked_by_population(resources, graph, tables, settings, chosen, population)
        }
        Verdict::Faulty(findings) => Ok(Checked::Faulty(Found {
            findings,
            rules: empty_report(resources.alloc),
        })),
    }
}

/// Returns all findings of a file or, if there are none, the rows of its population and its weak
/// pins. The pins are those for a merge of instances of the `chosen` entity data types.
///
/// Names, kinds and keys of rules are hashed with the keys of `resources`.
pub fn conforming<'r, 't, 's: 'a, 'a: 'r>(
    resources: Resources,
    graph: &'r ResolvedSchema<'s, 't>,
    tables: &'r SchemaTables,
    chosen: &Chosen,
    exchange: &'r Exchange<'a>,
) -> Result<Checked<'s, 'a>, AllocError>
    requires sound { IsSound graph.now }
    requires tables { AreTables graph.now.types tables.now }
    ensures { IfOk result (ChecksFile (the_schema graph.entry.now.types.names)
        (other_names graph.entry.now.types.names.schema.now)
        (structure exchange.entry.now) chosen.now) }
{
    let settings = SettingTables::of(
        resources.alloc,
        resources.keys,
        &graph.types,
        &graph.rules.inverses,
        tables,
    )?;
    checked_by_settings(resources, graph, tables, &settings, chosen, exchange)
}
