//! The rules of a schema at a population: domain rules, uniqueness rules and the bounds of inverse attributes
//! (ISO 10303-11, 9.1, 9.2.1.3 and 9.2.2).

ghost use Rattle.std.specs.Prelude.{IfOk};
ghost use Rattle.conformance.specs.Conforming.{PopulationConforms};
ghost use Rattle.conformance.specs.SchemaMeanings.{Said};
ghost use Rattle.schema_names.specs.Schemas.{the_schema};
ghost use Rattle.typed_populations.specs.PopulationViews.{population_seen};
ghost use Rattle.file_findings.specs.Findings.{AreRuleFindings};
ghost use Rattle.file_findings.specs.steps.Ruling.{AreReady, AreDomainFindings};

use population_forms::forms::entities_are_said;
use population_forms::tables::SchemaTables;
use population_inverses::extents::Extents;
use population_uniqueness::inverses::check_inverse;
use population_uniqueness::uniques::check_unique;
use resources::Resources;
use rule_names::tables::SettingTables;
use rule_outcomes::report::RuleReport;
use rule_outcomes::rule_check::check_rules;
use rule_settings::setting::Setting;
use rule_sources::sources::FormSources;
use schema_attribute_sources::source_existence::attributes_are_said;
use schema_constraints::tables::RuleTables;
use schema_derived_attributes::formula_existence::formulas_are_said;
use schema_resolution::findings::DomainTables;
use schema_resolution::resolved_schema::ResolvedSchema;
use schema_types::types::ResolvedTypes;
use std::alloc::AllocError;
use typed_populations::population::Population;

/// The schema of these tables has a meaning (a `Said`).
pub fn schema_is_said(
    types: &ResolvedTypes<'_, '_>,
    rules: &RuleTables<'_>,
    domain: &DomainTables<'_, '_>,
    tables: &SchemaTables,
    settings: &SettingTables<'_, '_>,
)
    requires ready { AreReady types.now rules.now domain.now tables.now settings.now }
    ensures { Said (the_schema types.now.names) }
{
    let known = tables.knowledge(types);
    entities_are_said(&known);
    attributes_are_said(types, &settings.sources, &rules.inverses);
    formulas_are_said(&domain.formulas);
}

/// Tests the domain rules of a schema at a population. Explicit attributes are hashed with the
/// keys of `resources`.
fn domain_findings<'e, 'r, 't, 's: 'r, 'a: 'r>(
    resources: Resources,
    domain: &DomainTables<'s, 't>,
    tables: &SchemaTables,
    settings: &SettingTables<'r, 's>,
    extents: &Extents<'s, 't, 'r, 'a, 'e>,
) -> Result<RuleReport<'s>, AllocError>
    requires ready { AreReady extents.now.population.now.types.now extents.now.rules.now domain.now
        tables.now settings.now }
    ensures { IfOk result (λ r.
        (said : Said (the_schema extents.now.population.now.types.now.names))
        → PopulationConforms (the_schema extents.now.population.now.types.now.names)
        said.domain said.entities (population_seen extents.now.population.now)
        → AreDomainFindings (the_schema extents.now.population.now.types.now.names) said
        (population_seen extents.now.population.now) r) }
{
    let types = extents.population.types;
    let inverses = extents.rules.inverses.as_slice();
    let forms = extents.population.forms();
    let form_of = extents.population.rows.form_of.as_slice();
    let sources = FormSources::of(
        resources.alloc,
        resources.keys,
        types,
        &settings.sources,
        inverses,
        forms,
        form_of,
    )?;
    let setting = Setting {
        extents,
        tables: settings,
        forms: &sources,
        formulas: &domain.formulas,
    };
    let report = check_rules(resources.alloc, &setting, &domain.rules)?;
    Ok(report)
}

/// Returns the findings of a schema's rules at a population, in this order:
///
/// - domain rules that are FALSE at an instance;
/// - uniqueness rules that are broken;
/// - bounds of inverse attributes that are broken.
///
/// The report also counts the pairs of an instance and a domain rule whose outcome is UNKNOWN.
/// Explicit attributes and the keys of uniqueness rules are hashed with the keys of `resources`.
pub fn rule_findings<'e, 'r, 't, 's: 'r, 'a: 'r>(
    resources: Resources,
    graph: &ResolvedSchema<'s, 't>,
    tables: &SchemaTables,
    settings: &SettingTables<'r, 's>,
    extents: &Extents<'s, 't, 'r, 'a, 'e>,
) -> Result<RuleReport<'s>, AllocError>
    requires ready { AreReady extents.now.population.now.types.now extents.now.rules.now
        graph.now.domain tables.now settings.now }
    ensures { IfOk result (λ r.
        (said : Said (the_schema extents.now.population.now.types.now.names))
        → PopulationConforms (the_schema extents.now.population.now.types.now.names)
        said.domain said.entities (population_seen extents.now.population.now)
        → AreRuleFindings (the_schema extents.now.population.now.types.now.names) said
        (population_seen extents.now.population.now) r.findings.items r.unknown) }
{
    let mut report = domain_findings(resources, &graph.domain, tables, settings, extents)?;
    let mut uniques = check_unique(resources.alloc, resources.keys, extents)?;
    let mut bounds = check_inverse(resources.alloc, extents)?;
    report.findings.append(&mut uniques)?;
    report.findings.append(&mut bounds)?;
    Ok(report)
}

/// Returns the findings of a schema's rules at a population, whose extents are built for that.
pub(crate) fn found_by_rules<'r, 't, 's: 'r, 'a: 'r>(
    resources: Resources,
    graph: &ResolvedSchema<'s, 't>,
    tables: &SchemaTables,
    settings: &SettingTables<'r, 's>,
    population: &Population<'s, 't, 'r, 'a>,
) -> Result<RuleReport<'s>, AllocError>
    requires ready { AreReady population.now.types.now graph.now.rules graph.now.domain tables.now
        settings.now }
    ensures { IfOk result (λ r. (said : Said (the_schema population.now.types.now.names))
        → PopulationConforms (the_schema population.now.types.now.names) said.domain
        said.entities (population_seen population.now)
        → AreRuleFindings (the_schema population.now.types.now.names) said
        (population_seen population.now) r.findings.items r.unknown) }
{
    let extents = Extents::build(resources.alloc, population, &graph.rules)?;
    let report = rule_findings(resources, graph, tables, settings, &extents)?;
    Ok(report)
}
