//! The keys of the instances that were visited.

ghost use Rattle.std.specs.Prelude.{option_copied, IfOk};
ghost use Rattle.population_uniqueness.specs.steps.Parts.{parts_by};
ghost use Rattle.population_uniqueness.specs.steps.Positions.{numbers_in};
ghost use Rattle.population_uniqueness.specs.steps.Keys.{Meets};

use crate::parts::parts_at;
use indexmap::IndexSet;
use std::alloc::{AllocError, Global};
use std::hash::RandomState;
use step_values::normal::Normal;
use step_values::slot::Slots;

/// A key: the normal forms of its parts.
#[derive(PartialEq, Eq, Hash, Drop)]
pub(crate) struct Key<'a> {
    parts: Vec<Normal<'a>>,
}

/// A set of keys. Hash keys are random, so that no file can be crafted to have keys that collide.
pub(crate) type Keys<'a> = IndexSet<Key<'a>, RandomState>;

/// Whether the key of an instance is in `met` already; it is added if it isn't. `positions` are
/// those of the key's parts among `values`. Returns false if the instance has no key.
pub(crate) fn meets_again<'p, 'a: 'c, 'c>(
    alloc: Global,
    met: &mut Keys<'c>,
    values: &Slots<'p, 'a>,
    positions: Option<&Vec<usize>>,
) -> Result<bool, AllocError>
    ensures { IfOk result (λ again. Meets
        (parts_by values.now (numbers_in (option_copied positions.entry))) again met.old met.new) }
{
    let Some(positions) = positions else {
        return Ok(false);
    };
    let Some(parts) = parts_at(alloc, values, positions)? else {
        return Ok(false);
    };
    let is_new = met.insert(Key { parts })?;
    Ok(!is_new)
}
