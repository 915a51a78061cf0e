//! Whether elements are distinct. Their normal forms are sorted, and then neighbors are compared.

ghost use Rattle.std.specs.Prelude.{◌≡◌, IfOk};
ghost use Rattle.step_records.specs.Cells.{all_of};
ghost use Rattle.step_values.specs.NormalForms.{AreNormal, normal_eq};
ghost use Rattle.express_syntax.specs.Schemas.{Schema};
ghost use Rattle.conformance.specs.Bases.{Domain, IsDomain, Base as BaseTree};
ghost use Rattle.conformance.specs.ParameterFits.{
  value_as,
  values_as,
  is_set,
  set_ones,
  are_distinct,
};
ghost use Rattle.schema_names.specs.Schemas.{the_schema};
ghost use Rattle.schema_underlying_types.specs.BaseViews.{base_seen};
ghost use Rattle.schema_underlying_types.specs.Tables.{AreBases, IsNumberedBase};
ghost use Rattle.parameter_fits.specs.steps.Apart.{neighbours_apart};
ghost use Rattle.parameter_fits.specs.steps.Named.{each_by_name};

use crate::normal_forms::normal_value;
use schema_underlying_types::base::Base;
use schema_underlying_types::lookup::Bases;
use std::alloc::{AllocError, Global};
use step_records::param::{Node, Param, Params};
use step_values::normal::Normal;

/// Whether no two of `params` have equal values, unset values aside. All have the underlying type
/// `base`.
pub fn are_distinct(
    alloc: Global,
    bases: &Bases<'_, '_, '_>,
    base: Base,
    params: &Params<'_, '_>,
) -> Result<bool, AllocError>
    requires bases { AreBases bases.now }
    requires numbered { IsNumberedBase (the_schema bases.now.names.now) base }
    ensures { IfOk result (λ b. (d : Domain) → IsDomain (the_schema bases.now.names.now) d
        → b ≡ are_distinct (values_as (the_schema bases.now.names.now) d
        (base_seen (the_schema bases.now.names.now) base) (all_of params.now))) }
{
    if params.len() < 2 {
        return Ok(true);
    }
    let mut forms = set_forms(alloc, bases, base, params)?;
    forms.sort_unstable();
    Ok(neighbours_differ(&forms))
}

/// Returns the normal forms of the elements that aren't unset.
fn set_forms<'a>(
    alloc: Global,
    bases: &Bases<'_, '_, '_>,
    base: Base,
    params: &Params<'a, '_>,
) -> Result<Vec<Normal<'a>>, AllocError>
    requires bases { AreBases bases.now }
    requires numbered { IsNumberedBase (the_schema bases.now.names.now) base }
    ensures { IfOk result (λ ns. (d : Domain) → IsDomain (the_schema bases.now.names.now) d
        → AreNormal (each_by_name (set_ones (values_as (the_schema bases.now.names.now) d
        (base_seen (the_schema bases.now.names.now) base) (all_of params.now)))) ns.items) }
{
    let mut forms = Vec::with_capacity(alloc, params.len())?;
    for i in 0..params.len() {
        let param = params.at(i);
        if is_set(&param) {
            forms.push(normal_value(alloc, bases, base, &param)?)?;
        }
    }
    Ok(forms)
}

/// Whether the value of `param` isn't unset.
fn is_set(param: &Param<'_, '_>) -> bool
    ensures { (s : Schema) (d : Domain) (b : BaseTree)
        → result ≡ is_set (value_as s d b param.now) }
{
    match param.node() {
        Node::Unset | Node::Keyword(_) => false,
        _ => true,
    }
}

/// Whether no form equals the next one.
fn neighbours_differ(forms: &[Normal<'_>]) -> bool
    ensures { result ≡ neighbours_apart normal_eq forms.now }
{
    for i in 1..forms.len() {
        if forms[i - 1] == forms[i] {
            return false;
        }
    }
    true
}
