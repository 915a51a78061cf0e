//! Whether instances that are alike start in one class.

ghost use Rattle.std.specs.Prelude.{◌≡◌, ◌↔◌, ℕ, IfOk, IsTrue, length, true};
ghost use Rattle.value_equality.specs.ValueEquality.{AreAlike};
ghost use Rattle.value_equality.specs.Maps.{is_pinned};
ghost use Rattle.value_equality.specs.Standard.{IsWellFormed};
ghost use Rattle.value_equality.specs.Tables.{HasMembers, shares};
ghost use Rattle.value_equality.specs.TableViews.{table_of};
ghost use Rattle.row_signatures.specs.steps.Numbers.{ArePlaces};
ghost use Rattle.certificate_checks.specs.steps.ComputedStarts.{Determine};

use crate::classes::classes_at;
use row_signatures::kinds::kinds;
use std::alloc::{AllocError, Global};
use std::collections::BTreeSet;
use std::hash::RandomState;
use value_equality::plain::Plain;
use value_equality::table::Table;

/// Whether any two instances that are alike share a class at round 0. Two instances are alike if
/// they have the same section and the same types, and are the same if either is pinned.
///
/// The members of the table are the names of the input, in order. Kinds are hashed with `keys`.
pub fn starts_together<'a>(
    alloc: Global,
    keys: RandomState,
    input: &Plain<'a>,
    pinned: &BTreeSet<u64>,
    table: &Table,
) -> Result<bool, AllocError>
    requires members { HasMembers input.now (table_of table.now) }
    requires well_formed { IsWellFormed (table_of table.now) }
    ensures { IfOk result (λ b. IsTrue b ↔ ((x z : ℕ)
        → AreAlike input.now (is_pinned pinned.now) x z
        → shares (table_of table.now) 0 x z ≡ true)) }
{
    // its contract says that no name occurs twice
    let _rows = input.len();
    let kinds = kinds(alloc, keys, input, pinned)?;
    let classes = classes_at(alloc, input, table, 0)?;
    Ok(determine(&kinds, &classes))
}

/// Whether positions that are equal in `kinds` are equal in `classes`. Each entry of `kinds` is a
/// position with that entry, so it is enough to compare with it.
fn determine(kinds: &[u32], classes: &[u32]) -> bool
    requires each { length kinds.now ≡ length classes.now }
    requires places { ArePlaces kinds.now }
    ensures { IsTrue result ↔ Determine kinds.now classes.now }
{
    for place in 0..kinds.len() {
        let first = kinds[place] as usize;
        if classes[first] != classes[place] {
            return false;
        }
    }
    true
}
