//! Parameters that don't fit the attributes of their instance.

ghost use Rattle.std.specs.Prelude.{◌≡◌, ◌&&◌, List, map, IfOk, OnOk};
ghost use Rattle.express_syntax.specs.Profile.{Every};
ghost use Rattle.step_records.specs.Cells.{all_of};
ghost use Rattle.step_exchange.specs.Views.{record_in, form_of};
ghost use Rattle.schema_semantics.specs.Names.{Name};
ghost use Rattle.schema_semantics.specs.Attributes.{Place};
ghost use Rattle.schema_names.specs.Schemas.{the_schema};
ghost use Rattle.schema_underlying_types.specs.BaseViews.{type_at};
ghost use Rattle.schema_underlying_types.specs.Tables.{NamesKnownType};
ghost use Rattle.conformance.specs.Bases.{Domain};
ghost use Rattle.conformance.specs.Entities.{Entities, records, parameters};
ghost use Rattle.conformance.specs.ParameterFits.{is_dollar, is_star_or_dollar};
ghost use Rattle.conformance.specs.Findings.{misfit_of, misfit_at};
ghost use Rattle.population_forms.specs.steps.Forms.{IsSlotOf};
ghost use Rattle.population_findings.specs.steps.Judging.{IsJudge, AreOf, TellsRecord, TellsAll, target_by};

use crate::finding_lists::tell_at;
use crate::judge::Judge;
use crate::keywords::is_internal;
use conformance::finding::{Finding, FindingKind};
use parameter_fits::fits::misfit;
use population_rows::form::SlotForm;
use std::alloc::AllocError;
use step_records::param::{Node, Param, Params};

/// Whether a parameter is `$`.
fn is_unset(param: &Param<'_, '_>) -> bool
    ensures { result ≡ is_dollar param.now }
{
    matches!(param.node(), Node::Unset)
}

/// Whether a parameter is `*` or `$`.
fn is_left_out(param: &Param<'_, '_>) -> bool
    ensures { result ≡ is_star_or_dollar param.now }
{
    matches!(param.node(), Node::Unset | Node::Star)
}

/// Returns the finding of `param` for the first of `data_types` that it doesn't fit, if any.
fn first_misfit(
    judge: &Judge<'_, '_, '_>,
    data_types: &[u32],
    param: &Param<'_, '_>,
) -> Result<Option<FindingKind>, AllocError>
    requires { IsJudge judge.now }
    ensures { IfOk result (λ f. (d : Domain) → (en : Entities) → AreOf judge.now d en
        → Every (λ k. NamesKnownType (the_schema judge.now.bases.names.now)
        (type_at (the_schema judge.now.bases.names.now) k)) data_types.now
        → f ≡ misfit_of (the_schema judge.now.bases.names.now) d en (target_by judge.now)
        (map (type_at (the_schema judge.now.bases.names.now)) data_types.now) param.now) }
{
    for number in data_types {
        let base = judge.bases.of_number(*number);
        let found = misfit(judge.alloc, &judge.bases, &judge.targets, &base, param)?;
        if found.is_some() {
            return Ok(found);
        }
    }
    Ok(None)
}

/// Whether `param` is `$` and `slot` allows that.
fn is_allowed_unset(slot: &SlotForm, param: &Param<'_, '_>) -> bool
    ensures { result ≡ (slot.now.is_optional && is_dollar param.now) }
{
    slot.is_optional && is_unset(param)
}

/// Returns the finding of the parameter of the attribute `slot`, if any.
fn slot_misfit(
    judge: &Judge<'_, '_, '_>,
    slot: &SlotForm,
    param: &Param<'_, '_>,
) -> Result<Option<FindingKind>, AllocError>
    requires { IsJudge judge.now }
    ensures { IfOk result (λ f. (d : Domain) → (en : Entities) → AreOf judge.now d en
        → (types : List Name) → (p : Place)
        → IsSlotOf (the_schema judge.now.bases.names.now) en types p slot.now
        → f ≡ misfit_at (the_schema judge.now.bases.names.now) d en (target_by judge.now) types p
        param.now) }
{
    if slot.is_derived {
        if is_left_out(param) {
            return Ok(None);
        }
        return Ok(Some(FindingKind::MisplacedStar));
    }
    if is_allowed_unset(slot, param) {
        return Ok(None);
    }
    first_misfit(judge, &slot.data_types, param)
}

/// Adds the findings of `values`, the parameters of a record whose first attribute is
/// `slots[from]`. Returns the index of the attribute after the last. In findings, the parameters of
/// all records of an instance are counted from 1.
fn tell_record(
    judge: &Judge<'_, '_, '_>,
    found: &mut Vec<Finding>,
    instance: u64,
    slots: &[SlotForm],
    from: usize,
    values: &Params<'_, '_>,
) -> Result<usize, AllocError>
    requires { IsJudge judge.now }
    ensures { IfOk result (TellsRecord judge.now instance slots.now from (all_of values.now)
        found.old.items found.new.items) }
{
    let mut place = from;
    for i in 0..values.len() {
        if place >= slots.len() {
            return Ok(place);
        }
        let kind = slot_misfit(judge, &slots[place], &values.at(i))?;
        place += 1;
        tell_at(found, instance, place as u64, kind)?;
    }
    Ok(place)
}

/// Adds the findings of the parameters of `partials`.
fn tell_partials(
    judge: &Judge<'_, '_, '_>,
    found: &mut Vec<Finding>,
    instance: u64,
    slots: &[SlotForm],
    partials: &Params<'_, '_>,
) -> Result<(), AllocError>
    requires { IsJudge judge.now }
    ensures { OnOk result (TellsAll judge.now instance slots.now
        (parameters (map record_in partials.now)) found.old.items found.new.items) }
{
    let mut place = 0;
    for i in 0..partials.len() {
        let (_, values) = partials.at(i).parts().split(1);
        place = tell_record(judge, found, instance, slots, place, &values)?;
    }
    Ok(())
}

/// Adds the findings of the parameters of an instance with the attributes `slots`.
pub fn tell_misfits(
    judge: &Judge<'_, '_, '_>,
    found: &mut Vec<Finding>,
    instance: u64,
    slots: &[SlotForm],
    parts: &Params<'_, '_>,
) -> Result<(), AllocError>
    requires { IsJudge judge.now }
    ensures { OnOk result (TellsAll judge.now instance slots.now
        (parameters (records (form_of parts.now))) found.old.items found.new.items) }
{
    if !is_internal(parts) {
        return tell_partials(judge, found, instance, slots, parts);
    }
    let (_, values) = parts.split(1);
    tell_record(judge, found, instance, slots, 0, &values)?;
    Ok(())
}
