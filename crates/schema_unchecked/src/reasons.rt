//! The reason why a rule or a derived attribute isn't checked.

ghost use Rattle.std.specs.Prelude.{◌≡◌, IfOk};
ghost use Rattle.std.specs.List.{list_any};
ghost use Rattle.express_syntax.specs.Schemas.{Derived as DerivedTree};
ghost use Rattle.express_syntax.specs.Views.{body_of};
ghost use Rattle.schema_semantics.specs.Attributes.{Derivation, IsDerivation};
ghost use Rattle.schema_semantics.specs.Ranks.{Self};
ghost use Rattle.schema_data_types.specs.steps.Values.{Holds};
ghost use Rattle.schema_attributes.specs.Derivations.{HasDerivation};
ghost use Rattle.schema_attribute_references.specs.steps.Taking.{IsKnown, schema_in};
ghost use Rattle.schema_data_types.specs.Items.{AreItems};
ghost use Rattle.schema_derived_attributes.specs.AttributeRanks.{AreRanksOf};
ghost use Rattle.schema_unchecked.specs.steps.Judging.{AreJudged, IsReasonFor};
ghost use Rattle.schema_unchecked.specs.steps.Surveyed.{is_aside, reason_with};

use crate::judgement::{Judgement, judge};
use express_syntax::tree::Body;
use schema_attribute_references::schema_facts::Known;
use schema_data_types::items::Items;
use schema_data_types::values::Atom;
use schema_semantics::unchecked::Reason;
use std::alloc::{AllocError, Global};

/// Whether the derived attribute `number` is set aside.
fn is_aside(ranks: &[Option<u32>], number: u32) -> bool
    ensures { result ≡ is_aside ranks.now number }
{
    match ranks.get(number as usize) {
        Some(rank) => rank.is_none(),
        None => false,
    }
}

/// Whether one of the derived attributes is set aside.
fn any_aside(ranks: &[Option<u32>], uses: &[u32]) -> bool
    ensures { result ≡ list_any (is_aside ranks.now) uses.now }
{
    uses.iter().any(|number| is_aside(ranks, *number))
}

/// Returns the reason of the judgement, if any, otherwise `Leads` if a derived attribute that it
/// may use is set aside.
fn reason_with(ranks: &[Option<u32>], judgement: &Judgement) -> Option<Reason>
    ensures { result ≡ reason_with ranks.now judgement.now }
{
    if let Some(reason) = judgement.reason {
        return Some(reason);
    }
    if any_aside(ranks, &judgement.uses) {
        Some(Reason::Leads)
    } else {
        None
    }
}

/// Returns the reason why `body` isn't checked, where SELF may be one of `own`: its own first
/// reason, otherwise `Leads` if a derived attribute that it may use is set aside. `None` if it is
/// checked.
pub fn reason_for<'r, 'a>(
    alloc: Global,
    known: &Known<'a, '_, 'r>,
    items: &'r Items<'a>,
    ranks: &[Option<u32>],
    own: &'r [Atom],
    body: &Body<'a>,
) -> Result<Option<Reason>, AllocError>
    requires known { IsKnown known.now }
    requires items { AreItems (schema_in known.now) items.now }
    requires ranks { AreRanksOf (schema_in known.now) ranks.now }
    ensures { IfOk result (IsReasonFor (schema_in known.now) (Holds (schema_in known.now) own.now)
        (body_of body.now)) }
{
    let judgement = judge(alloc, known, items, own, body)?;
    Ok(reason_with(ranks, &judgement))
}

/// Returns the reason why the derived attribute `number` isn't checked, if any.
pub fn reason_of_derived(
    known: &Known<'_, '_, '_>,
    judged: &[Judgement],
    ranks: &[Option<u32>],
    number: u32,
) -> Option<Reason>
    requires judged { AreJudged (schema_in known.now) judged.now }
    requires ranks { AreRanksOf (schema_in known.now) ranks.now }
    ensures { (d : Derivation) (x : DerivedTree) → HasDerivation (schema_in known.now) number d
        → IsDerivation (schema_in known.now) d x
        → IsReasonFor (schema_in known.now) (Self d.0) x.body result }
{
    match judged.get(number as usize) {
        Some(judgement) => reason_with(ranks, judgement),
        None => None,
    }
}
