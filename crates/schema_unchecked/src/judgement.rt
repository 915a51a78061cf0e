//! The judgement of one expression, without those of the derived attributes that it uses.

ghost use Rattle.std.specs.Prelude.{◌≡◌, IfOk};
ghost use Rattle.express_syntax.specs.Views.{body_of};
ghost use Rattle.schema_data_types.specs.steps.Values.{Holds};
ghost use Rattle.schema_attribute_references.specs.steps.Taking.{IsKnown, schema_in};
ghost use Rattle.schema_data_types.specs.Items.{AreItems};
ghost use Rattle.schema_unchecked.specs.steps.Judging.{IsJudged};
ghost use Rattle.schema_unchecked.specs.steps.Surveyed.{first_found};

use express_syntax::tree::Body;
use schema_attribute_references::schema_facts::Known;
use schema_data_types::items::Items;
use schema_data_types::values::Atom;
use schema_expression_analysis::survey::{Survey, survey_expression};
use schema_semantics::unchecked::Reason;
use std::alloc::{AllocError, Global};

/// The judgement of the body of a rule or of a derived attribute, by itself.
#[derive(Drop)]
pub struct Judgement {
    /// The first reason why the body isn't checked, if any.
    pub reason: Option<Reason>,
    /// The numbers of the derived attributes on which the value may depend.
    pub uses: Vec<u32>,
}

/// Returns the first reason in a survey, if any.
fn first_found(survey: &Survey) -> Option<Reason>
    ensures { result ≡ first_found survey.now }
{
    if survey.has_loose_aggregate {
        Some(Reason::Profile)
    } else if survey.has_unclear_name {
        Some(Reason::Name)
    } else if survey.has_bad_typeof {
        Some(Reason::Typeof)
    } else if survey.has_bad_kind {
        Some(Reason::Kind)
    } else {
        None
    }
}

/// Returns the judgement of `body`, where SELF may be one of `own`.
pub fn judge<'r, 'a>(
    alloc: Global,
    known: &Known<'a, '_, 'r>,
    items: &'r Items<'a>,
    own: &'r [Atom],
    body: &Body<'a>,
) -> Result<Judgement, AllocError>
    requires known { IsKnown known.now }
    requires items { AreItems (schema_in known.now) items.now }
    ensures { IfOk result (IsJudged (schema_in known.now) (Holds (schema_in known.now) own.now)
        (body_of body.now)) }
{
    match body {
        Body::Expression(expression) => {
            let survey = survey_expression(alloc, known, items, own, expression)?;
            let reason = first_found(&survey);
            Ok(Judgement {
                reason,
                uses: survey.uses,
            })
        }
        Body::SetAside(_) => {
            Ok(Judgement {
                reason: Some(Reason::Profile),
                uses: Vec::new(alloc),
            })
        }
    }
}
