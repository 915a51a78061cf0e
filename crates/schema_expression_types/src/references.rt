//! The meanings of references, and their possible values.

ghost use Rattle.std.specs.Prelude.{IfOk};
ghost use Rattle.express_syntax.specs.Trees.{named};
ghost use Rattle.express_syntax.specs.ExpressionViews.{capitals, root_of, qualifiers_of};
ghost use Rattle.schema_attribute_references.specs.steps.Taking.{schema_in};
ghost use Rattle.schema_expression_types.specs.steps.Scopes.{IsScope, IsReferred, own_in, variables_in};

use crate::meanings::{Meaning, meaning_of};
use crate::paths::{select, select_of_item, select_of_taken};
use crate::scope::Scope;
use express_syntax::expression::{Qualifier, Root};
use schema_data_types::values::Atom;
use std::alloc::{AllocError, Global};
use step_literals::literal::Word;

/// The analysis of a reference.
#[derive(Drop)]
pub struct Reference {
    /// Whether the reference refers to nothing, or has an unclear name.
    pub is_unclear: bool,
    /// The possible values of the reference.
    pub may: Vec<Atom>,
    /// The numbers of the derived attributes on which the value may depend.
    pub uses: Vec<u32>,
}

/// Returns the analysis of a reference that begins with a name.
fn refer_by_name<'a>(
    alloc: Global,
    scope: &Scope<'a, '_, '_, '_>,
    name: Word<'_>,
    qualifiers: &[Qualifier<'a>],
) -> Result<Reference, AllocError>
    requires scope { IsScope scope.now }
    ensures { IfOk result (IsReferred (schema_in scope.now.known) (own_in scope.now)
        (variables_in scope.now) (named (capitals name.entry)) (qualifiers_of qualifiers.now)) }
{
    match meaning_of(alloc, scope, name, qualifiers)? {
        Meaning::Variable(may) => select(alloc, &scope.known, may, qualifiers),
        Meaning::Attribute(taken) => select_of_taken(alloc, &scope.known, taken, qualifiers),
        Meaning::ItemOfType => select_of_item(alloc, &scope.known, &qualifiers[1..]),
        Meaning::Item => select_of_item(alloc, &scope.known, qualifiers),
        Meaning::Nothing => Ok(Reference {
            is_unclear: true,
            may: Vec::new(alloc),
            uses: Vec::new(alloc),
        }),
    }
}

/// Returns the analysis of a reference (ISO 10303-11, 12.7).
///
/// Its root is the first of these that applies: SELF, a variable, an attribute of SELF, an item of
/// the enumeration before the dot, an item of any enumeration.
pub fn refer<'a>(
    alloc: Global,
    scope: &Scope<'a, '_, '_, '_>,
    root: Root<'_>,
    qualifiers: &[Qualifier<'a>],
) -> Result<Reference, AllocError>
    requires scope { IsScope scope.now }
    ensures { IfOk result (IsReferred (schema_in scope.now.known) (own_in scope.now)
        (variables_in scope.now) (root_of root.entry) (qualifiers_of qualifiers.now)) }
{
    match root {
        Root::SelfInstance => {
            let own = Vec::from_slice(alloc, scope.own)?;
            select(alloc, &scope.known, own, qualifiers)
        }
        Root::Name(name) => refer_by_name(alloc, scope, name, qualifiers),
    }
}
