//! The evaluated parts of a schema: formulas and domain rules
//! (ISO 10303-11, 9.2.1.2, 9.1 and 9.2.2.2).

ghost use Rattle.std.specs.Prelude.{IfOk};
ghost use Rattle.schema_attribute_references.specs.steps.Taking.{schema_in};
ghost use Rattle.schema_unchecked.specs.steps.Findings.{AreFound};
ghost use Rattle.schema_resolution.specs.SchemaFindings.{AreDomainTables};

use crate::findings::DomainTables;
use schema_derived_attributes::formula_table::formulas;
use schema_domain_rules::list::domain_rules;
use schema_unchecked::findings::Findings;
use std::alloc::{AllocError, Global};

/// Returns the formulas of the derived attributes of a schema, and its checked domain rules.
pub(crate) fn domain_by<'t, 'a>(
    alloc: Global,
    findings: &Findings<'a, 't, '_>,
) -> Result<DomainTables<'a, 't>, AllocError>
    requires found { AreFound findings.now }
    ensures { IfOk result (AreDomainTables (schema_in findings.now.known)) }
{
    let formulas = formulas(alloc, findings.known.tables.names, findings.ranks)?;
    let rules = domain_rules(alloc, findings)?;
    Ok(DomainTables { formulas, rules })
}
