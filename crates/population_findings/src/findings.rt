//! All findings of a file, in order.

ghost use Rattle.std.specs.Prelude.{◌≡◌, ◌++◌, IfOk, OnOk};
ghost use Rattle.express_syntax.specs.SchemaViews.{schema_of};
ghost use Rattle.step_exchange.specs.Exchanges.{structure};
ghost use Rattle.step_exchange.specs.Views.{form_in, form_of, rows_with};
ghost use Rattle.conformance.specs.Bases.{Domain, IsDomain};
ghost use Rattle.conformance.specs.Entities.{Entities, AreEntities};
ghost use Rattle.conformance.specs.OtherNames.{other_names};
ghost use Rattle.conformance.specs.Findings.{findings};
ghost use Rattle.schema_names.specs.Schemas.{the_schema};
ghost use Rattle.schema_underlying_types.specs.Tables.{AreBases};
ghost use Rattle.population_forms.specs.steps.Knowing.{AreKnown};
ghost use Rattle.population_findings.specs.steps.Rows.{AreRowsOf, rows_in};
ghost use Rattle.population_rows.specs.steps.Rows.{form_at};
ghost use Rattle.population_findings.specs.steps.Judging.{
  IsJudge,
  TellsBehind,
  TellsForm,
  TellsRows,
  TellsTypes,
  is_sound,
  schema_told,
};

use crate::counts::wrong_counts;
use crate::finding_lists::tell_whole;
use crate::judge::Judge;
use crate::keywords::unknown_entities;
use crate::misfits::tell_misfits;
use crate::schema_name::is_of_schema;
use conformance::finding::{Finding, FindingKind, Spot};
use express_syntax::tree::SchemaTree;
use parameter_fits::targets::Targets;
use population_forms::forms::entities_are_said;
use population_forms::knowledge::Knowledge;
use population_rows::form::Form;
use population_rows::rows::{Rows, form_at};
use schema_underlying_types::lookup::Bases;
use std::alloc::{AllocError, Global};
use step_exchange::structure::Exchange;
use step_records::param::{Param, Params};

/// Returns the targets of references in a file with `rows`.
fn targets_in(rows: &Rows) -> Targets<'_>
    ensures index { result.index.now ≡ rows.now.index }
    ensures forms { result.forms.now ≡ rows.now.form_of.items }
    ensures types { result.types.now ≡ rows.now.types.items }
{
    Targets {
        index: &rows.index,
        forms: &rows.form_of,
        types: &rows.types,
    }
}

/// Adds a finding if `exchange` isn't a structure of `schema`.
fn tell_schema(
    found: &mut Vec<Finding>,
    schema: &SchemaTree<'_>,
    exchange: &Exchange<'_>,
) -> Result<(), AllocError>
    ensures { OnOk result (found.new.items ≡ found.old.items
        ++ schema_told (schema_of schema.now) (other_names schema.now) (structure exchange.now)) }
{
    if is_of_schema(schema, exchange) {
        return Ok(());
    }
    found.push(Finding {
        kind: FindingKind::SchemaName,
        instance: 0,
        spot: Spot::Nothing,
    })?;
    Ok(())
}

/// Whether the types of `form` satisfy the constraints on ABSTRACT entities, supertypes and ONEOFs.
fn is_sound(form: &Form) -> bool
    ensures { result ≡ is_sound form.now }
{
    form.abstract_leaves == 0 && form.missing_supertypes == 0 && form.broken_one_ofs == 0
}

/// Adds the findings about the types of an instance of `form`.
fn tell_types(found: &mut Vec<Finding>, instance: u64, form: &Form) -> Result<(), AllocError>
    ensures { OnOk result (TellsTypes instance form.now found.old.items found.new.items) }
{
    tell_whole(
        found,
        instance,
        FindingKind::AbstractInstance,
        form.abstract_leaves,
    )?;
    tell_whole(
        found,
        instance,
        FindingKind::MissingSupertype,
        form.missing_supertypes,
    )?;
    tell_whole(
        found,
        instance,
        FindingKind::OneOfBroken,
        form.broken_one_ofs,
    )
}

/// Adds the findings of an instance of `form`: those about its types or, if there are none, those
/// about the number of its parameters or, if there are none, those about its parameters.
fn tell_form(
    judge: &Judge<'_, '_, '_>,
    found: &mut Vec<Finding>,
    instance: u64,
    form: &Form,
    parts: &Params<'_, '_>,
) -> Result<(), AllocError>
    requires { IsJudge judge.now }
    ensures { OnOk result (TellsBehind judge.now form.now
        (record { name = instance; form = form_of parts.now }) found.old.items found.new.items) }
{
    if !is_sound(form) {
        return tell_types(found, instance, form);
    }
    let wrong = wrong_counts(&form.counts, parts);
    if wrong > 0 {
        return tell_whole(found, instance, FindingKind::ParameterCount, wrong);
    }
    tell_misfits(judge, found, instance, &form.slots, parts)
}

/// Adds the findings of the instance of `row`.
fn tell_row(
    judge: &Judge<'_, '_, '_>,
    found: &mut Vec<Finding>,
    rows: &Rows,
    row: usize,
    instance: u64,
    value: &Param<'_, '_>,
) -> Result<(), AllocError>
    requires { IsJudge judge.now }
    ensures { OnOk result (TellsForm judge.now (form_at rows.now row)
        (record { name = instance; form = form_in value.now }) found.old.items found.new.items) }
{
    let parts = value.parts();
    match form_at(rows, row) {
        Some(form) => tell_form(judge, found, instance, form, &parts),
        None => {
            let unknown = unknown_entities(judge.bases.names, &parts);
            tell_whole(found, instance, FindingKind::UnknownEntity, unknown)
        }
    }
}

/// Adds the findings of the instances with these `names`, in order.
fn tell_rows(
    judge: &Judge<'_, '_, '_>,
    found: &mut Vec<Finding>,
    rows: &Rows,
    names: &[u64],
    instances: &Params<'_, '_>,
) -> Result<(), AllocError>
    requires { IsJudge judge.now }
    ensures { OnOk result (TellsRows judge.now rows.now (rows_with names.now instances.now)
        found.old.items found.new.items) }
{
    for i in 0..names.len() {
        let Some(instance) = instances.item(i) else {
            return Ok(());
        };
        tell_row(judge, found, rows, i, names[i], &instance)?;
    }
    Ok(())
}

/// Returns the findings of a file: that about the schema's name, then those of the instances in the
/// order of the file.
pub fn findings(
    alloc: Global,
    known: &Knowledge<'_, '_, '_>,
    bases: &Bases<'_, '_, '_>,
    rows: &Rows,
    exchange: &Exchange<'_>,
) -> Result<Vec<Finding>, AllocError>
    requires known { AreKnown known.now }
    requires bases { AreBases bases.now }
    requires same { known.now.names.now.schema.now ≡ bases.now.names.now.schema.now }
    requires rows { (en : Entities) → AreEntities (the_schema known.now.names.now) en
        → AreRowsOf (the_schema known.now.names.now) en (rows_in exchange.now) rows.now }
    ensures { let s = the_schema known.now.names.now in
        let others = other_names known.now.names.now.schema.now in
        IfOk result (λ fs. (d : Domain) → (en : Entities) → IsDomain s d → AreEntities s en
        → fs.items ≡ findings s d en others (structure exchange.now)) }
{
    entities_are_said(known);
    let mut found = Vec::new(alloc);
    tell_schema(&mut found, bases.names.schema, exchange)?;
    let targets = targets_in(rows);
    let judge = Judge {
        alloc,
        bases: *bases,
        targets,
    };
    let (_, instances) = exchange.trees.trees().split(exchange.header_len);
    tell_rows(
        &judge,
        &mut found,
        rows,
        exchange.names.as_slice(),
        &instances,
    )?;
    Ok(found)
}
