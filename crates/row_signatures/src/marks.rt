//! Marks of pinned rows, by position.

ghost use Rattle.std.specs.Prelude.{◌||◌, ℕ, Bool, IfOk};
ghost use Rattle.std.specs.BTreeMap.{is_at};
ghost use Rattle.std.specs.Ordering.{nat_cmp};
ghost use Rattle.value_equality.specs.Maps.{is_pinned};
ghost use Rattle.row_signatures.specs.steps.ComputedMarks.{AreMarks};

use std::alloc::{AllocError, Global};
use std::collections::BTreeSet;
use value_equality::plain::Plain;

/// Marks the row with this name, if any.
fn mark<'a>(marks: &mut Vec<bool>, input: &Plain<'a>, name: u64)
    ensures { (P : ℕ → Bool) → AreMarks input.now P marks.old.items
        → AreMarks input.now (λ y. P y || is_at (nat_cmp y) name) marks.new.items }
{
    // The contract of `len` says that names are distinct.
    let _rows = input.len();
    let Some(place) = input.find(name) else {
        return;
    };
    if place < marks.len() {
        marks[place] = true;
    }
}

/// Returns for each row, by position, whether its name is one of these. It looks up the names, not
/// the rows.
pub(crate) fn marks<'a>(
    alloc: Global,
    input: &Plain<'a>,
    pinned: &BTreeSet<u64>,
) -> Result<Vec<bool>, AllocError>
    ensures { IfOk result (λ v. AreMarks input.now (is_pinned pinned.now) v.items) }
{
    let mut marks = vec![in alloc; false; input.len()]?;
    for name in pinned {
        mark(&mut marks, input, *name);
    }
    Ok(marks)
}
