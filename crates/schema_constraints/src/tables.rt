//! The rules of a schema that apply to a whole population.

ghost use Rattle.std.specs.Prelude.{IfOk};
ghost use Rattle.conformance.specs.Bases.{Domain, IsDomain};
ghost use Rattle.conformance.specs.Rules.{AreRules};
ghost use Rattle.schema_attribute_references.specs.steps.Taking.{schema_in};
ghost use Rattle.schema_constraints.specs.steps.Sources.{AreSources};
ghost use Rattle.schema_constraints.specs.RuleViews.{rules_seen, AreNumbered};

use crate::inverses::{InverseAttribute, inverse_attributes};
use crate::sources::Sources;
use crate::uniques::{UniqueRule, unique_rules};
use std::alloc::{AllocError, Global};

/// The rules of a schema that apply to a whole population, in the order of the text.
#[derive(Drop)]
pub struct RuleTables<'a> {
    pub uniques: Vec<UniqueRule<'a>>,
    pub inverses: Vec<InverseAttribute<'a>>,
}

/// Returns the uniqueness rules and the inverse attributes of a schema whose names are resolved
/// (ISO 10303-11, 9.2.2.1 and 9.2.1.3).
///
/// Takes the time of `unique_rules` and of `inverse_attributes`.
pub fn rule_tables<'a>(
    alloc: Global,
    sources: &Sources<'a, '_, '_>,
) -> Result<RuleTables<'a>, AllocError>
    requires sources { AreSources sources.now }
    ensures rules { IfOk result (λ t. (d : Domain) → IsDomain (schema_in sources.now.known) d
        → AreRules (schema_in sources.now.known) d (rules_seen (schema_in sources.now.known) t)) }
    ensures numbered { IfOk result (AreNumbered (schema_in sources.now.known)) }
{
    let uniques = unique_rules(alloc, sources)?;
    let inverses = inverse_attributes(alloc, sources)?;
    Ok(RuleTables { uniques, inverses })
}
