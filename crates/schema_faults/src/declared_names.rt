//! The names that a prefix of a schema declares.

ghost use Rattle.std.specs.Prelude.{◌∷◌, [], OnOk};
ghost use Rattle.express_syntax.specs.ExpressionViews.{capitals};
ghost use Rattle.schema_faults.specs.steps.Repeated.{Sees};

use indexmap::IndexSet;
use std::alloc::{AllocError, Global};
use std::hash::RandomState;
use step_literals::literal::Word;

/// The names that have been declared, each with the scope in which it has to be unique, and the
/// first name that was declared again.
///
/// Names are added in the order of the text. The hash keys are random, so no schema can be crafted
/// to collide.
#[derive(Drop)]
pub(crate) struct Seen<'a> {
    pub(crate) names: IndexSet<(u32, Word<'a>), RandomState>,
    pub(crate) duplicate: Option<Word<'a>>,
}

/// Adds a declared name of a scope.
pub(crate) fn see<'a>(seen: &mut Seen<'a>, scope: u32, name: Word<'a>) -> Result<(), AllocError>
    ensures { OnOk result (Sees seen.old seen.new ((scope, capitals name.entry) ∷ [])) }
{
    if !seen.names.insert((scope, name))? {
        seen.duplicate = seen.duplicate.or(Some(name));
    }
    Ok(())
}
