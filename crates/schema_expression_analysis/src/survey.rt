//! Surveying an expression.

ghost use Rattle.std.specs.Prelude.{IfOk};
ghost use Rattle.express_syntax.specs.ExpressionViews.{tree_of};
ghost use Rattle.schema_data_types.specs.steps.Values.{Holds};
ghost use Rattle.schema_attribute_references.specs.steps.Taking.{IsKnown, schema_in};
ghost use Rattle.schema_data_types.specs.Items.{AreItems};
ghost use Rattle.express_syntax.specs.Schemas.{Schema};
ghost use Rattle.schema_expression_analysis.specs.steps.Findings.{Finding, IsFound};
ghost use Rattle.schema_expression_analysis.specs.steps.Surveys.{IsSurvey};

use crate::context::Context;
use crate::walk::survey_part;
use express_syntax::expression::Expr;
use schema_attribute_references::schema_facts::Known;
use schema_data_types::items::Items;
use schema_data_types::values::Atom;
use std::alloc::{AllocError, Global};

/// The findings in an expression.
#[derive(Drop)]
pub struct Survey {
    /// Whether there is an aggregate initializer elsewhere than on the right of IN.
    pub has_loose_aggregate: bool,
    /// Whether there is a name that refers to nothing, or to two attributes.
    pub has_unclear_name: bool,
    /// Whether there is TYPEOF elsewhere than on the right of IN, or a type test that can't be
    /// decided.
    pub has_bad_typeof: bool,
    /// Whether there is a comparison of values that aren't compared.
    pub has_bad_kind: bool,
    /// The numbers of the derived attributes on which the value may depend.
    pub uses: Vec<u32>,
}

/// Returns a survey without findings.
fn nothing(alloc: Global) -> Survey
    ensures { (s : Schema) (f : Finding) → IsFound s result f → ⊥ }
{
    Survey {
        has_loose_aggregate: false,
        has_unclear_name: false,
        has_bad_typeof: false,
        has_bad_kind: false,
        uses: Vec::new(alloc),
    }
}

/// Returns the findings in an expression, where SELF may be one of `own`.
pub fn survey_expression<'r, 'a>(
    alloc: Global,
    known: &Known<'a, '_, 'r>,
    items: &'r Items<'a>,
    own: &'r [Atom],
    expression: &Expr<'a>,
) -> Result<Survey, AllocError>
    requires known { IsKnown known.now }
    requires items { AreItems (schema_in known.now) items.now }
    ensures { IfOk result (IsSurvey (schema_in known.now) (Holds (schema_in known.now) own.now)
        (tree_of expression.now)) }
{
    let context = Context {
        known: *known,
        items,
        own,
    };
    let mut variables = Vec::new(alloc);
    let mut survey = nothing(alloc);
    survey_part(
        alloc,
        &context,
        &mut variables,
        &mut survey,
        false,
        expression,
    )?;
    Ok(survey)
}
