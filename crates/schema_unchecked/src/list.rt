//! The list of all unchecked parts of a schema.

ghost use Rattle.std.specs.Prelude.{◌≡◌, ◌<◌, ◌^◌, length, map, IfOk, OnOk};
ghost use Rattle.express_syntax.specs.Views.{declaration_of};
ghost use Rattle.schema_semantics.specs.Parts.{AreUnchecked, candidates};
ghost use Rattle.schema_attribute_references.specs.steps.Taking.{schema_in};
ghost use Rattle.schema_unchecked_declarations.specs.UncheckedLists.{Adds, unchecked_in};
ghost use Rattle.schema_unchecked.specs.steps.Findings.{AreFound};

use crate::declarations::add_declaration;
use crate::derived_attributes::first_behind;
use crate::findings::Findings;
use express_syntax::tree::Declaration;
use schema_unchecked_declarations::list::Unchecked;
use std::alloc::{AllocError, Global};

/// Adds the unchecked parts of all declarations, in the order of the text.
fn add_all<'a>(
    alloc: Global,
    findings: &Findings<'a, '_, '_>,
    list: &mut Vec<Unchecked>,
    declarations: &[Declaration<'a>],
) -> Result<(), AllocError>
    requires found { AreFound findings.now }
    requires few { length declarations.now < 2 ^ 32 }
    requires all { map declaration_of declarations.now
        ≡ (schema_in findings.now.known).declarations }
    ensures { OnOk result (Adds (candidates (schema_in findings.now.known))
        (unchecked_in list.old.items) (unchecked_in list.new.items)) }
{
    let mut first = 0;
    for i in 0..declarations.len() {
        let declaration = &declarations[i];
        add_declaration(alloc, findings, list, i as u32, first, declaration)?;
        first = first_behind(first, declaration)?;
    }
    Ok(())
}

/// Returns the parts of a schema that aren't checked, each with the first reason that applies, in
/// the order of the text.
pub fn unchecked_parts(
    alloc: Global,
    findings: &Findings<'_, '_, '_>,
) -> Result<Vec<Unchecked>, AllocError>
    requires found { AreFound findings.now }
    ensures { IfOk result (λ t. AreUnchecked (schema_in findings.now.known)
        (unchecked_in t.items)) }
{
    let mut list = Vec::new(alloc);
    let declarations = findings.known.tables.names.declarations();
    add_all(alloc, findings, &mut list, declarations)?;
    Ok(list)
}
