//! Names that are declared twice in their scope (ISO 10303-11, 10.1).

ghost use Rattle.std.specs.Prelude.{IfOk};
ghost use Rattle.express_syntax.specs.declared.fault.NameFault.TheVariants.{DuplicateName};
ghost use Rattle.schema_names.specs.Schemas.{the_schema};
ghost use Rattle.schema_faults.specs.steps.Shown.{IsShown};

use crate::declared_names::Seen;
use crate::parts::see_all;
use indexmap::IndexSet;
use schema_names::names::Names;
use std::alloc::{AllocError, Global};
use std::hash::RandomState;
use step_literals::literal::Word;

/// Returns the first name, in the order of the text, that is declared already in its scope, if any
/// (ISO 10303-11, 10.1): of `a`, `b`, `b`, `a` it is `b`.
///
/// Names are hashed with `keys`. Takes time proportional to the count of declared names.
pub fn first_duplicate<'a>(
    alloc: Global,
    keys: RandomState,
    names: &Names<'a, '_>,
) -> Result<Option<Word<'a>>, AllocError>
    ensures { IfOk result (IsShown (the_schema names.now) DuplicateName) }
{
    let mut seen = Seen {
        names: IndexSet::with_hasher(alloc, keys),
        duplicate: None,
    };
    see_all(&mut seen, names.declarations())?;
    Ok(seen.duplicate)
}
