//! The outcome of a schema's rules at a population, and the population's weak pins.

ghost use Rattle.std.specs.Prelude.{IfOk};
ghost use Rattle.schema_names.specs.Schemas.{the_schema};
ghost use Rattle.typed_populations.specs.PopulationViews.{population_seen};
ghost use Rattle.file_findings.specs.steps.Ruling.{AreReady};
ghost use Rattle.file_findings.specs.steps.ComputedRuling.{IsRuled};

use crate::rules::rule_findings;
use merge_choices::choice::Chosen;
use population_forms::tables::SchemaTables;
use population_inverses::extents::Extents;
use population_pins::weak_pins::WeakPins;
use population_pins::weak_rules::pins;
use resources::Resources;
use rule_names::tables::SettingTables;
use rule_outcomes::report::RuleReport;
use schema_resolution::resolved_schema::ResolvedSchema;
use std::alloc::AllocError;
use typed_populations::population::Population;

/// The outcome of a schema's rules at a population.
#[derive(Drop)]
pub(crate) enum Ruled<'s> {
    /// Some rules are broken: the findings, and the number of unknown outcomes.
    Broken(RuleReport<'s>),
    /// No rule is broken.
    Kept {
        /// The number of pairs of an instance and a domain rule whose outcome is UNKNOWN, at most
        /// 2^64 - 1.
        unknown: u64,
        /// The instances that the weak rules pin, and the lists that the gentle rules need.
        weak: WeakPins,
    },
}

/// Tests the rules at a population with these extents, and finds its weak pins if none is broken.
fn ruled_by_extents<'e, 'r, 't, 's: 'r, 'a: 'r>(
    resources: Resources,
    graph: &ResolvedSchema<'s, 't>,
    tables: &SchemaTables,
    settings: &SettingTables<'r, 's>,
    chosen: &Chosen,
    extents: &Extents<'s, 't, 'r, 'a, 'e>,
) -> Result<Ruled<'s>, AllocError>
    requires ready { AreReady extents.now.population.now.types.now extents.now.rules.now
        graph.now.domain tables.now settings.now }
    ensures { IfOk result (IsRuled
        (the_schema extents.now.population.now.types.now.names)
        (population_seen extents.now.population.now) extents.now.rules.now chosen.now) }
{
    let report = rule_findings(resources, graph, tables, settings, extents)?;
    let broken = report.findings.len();
    if broken > 0 {
        return Ok(Ruled::Broken(report));
    }
    let weak = pins(resources.alloc, extents, chosen)?;
    Ok(Ruled::Kept {
        unknown: report.unknown,
        weak,
    })
}

/// Tests the rules of the schema at a population, and finds its weak pins if none is broken. The
/// pins are those for a merge of instances of the `chosen` entity data types.
///
/// Keys of rules are hashed with the keys of `resources`.
pub(crate) fn ruled_by_population<'r, 't, 's: 'r, 'a: 'r>(
    resources: Resources,
    graph: &ResolvedSchema<'s, 't>,
    tables: &SchemaTables,
    settings: &SettingTables<'r, 's>,
    chosen: &Chosen,
    population: &Population<'s, 't, 'r, 'a>,
) -> Result<Ruled<'s>, AllocError>
    requires ready { AreReady population.now.types.now graph.now.rules graph.now.domain tables.now
        settings.now }
    ensures { IfOk result (IsRuled (the_schema population.now.types.now.names)
        (population_seen population.now) graph.now.rules chosen.now) }
{
    let extents = Extents::build(resources.alloc, population, &graph.rules)?;
    let ruled = ruled_by_extents(resources, graph, tables, settings, chosen, &extents)?;
    Ok(ruled)
}
