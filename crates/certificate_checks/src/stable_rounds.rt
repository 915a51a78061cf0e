//! Whether the last round of a table is stable.

ghost use Rattle.std.specs.Prelude.{◌≡◌, ◌↔◌, ℕ, IfOk, IsTrue, Some, slice_get};
ghost use Rattle.step_values.specs.Labels.{AgreeEachBy};
ghost use Rattle.value_equality.specs.Maps.{is_pinned};
ghost use Rattle.value_equality.specs.Rows.{Row};
ghost use Rattle.value_equality.specs.Standard.{IsWellFormed};
ghost use Rattle.value_equality.specs.Tables.{HasMembers, IsStable, shares};
ghost use Rattle.value_equality.specs.TableViews.{table_of};
ghost use Rattle.value_equality.specs.Views.{row_seen};
ghost use Rattle.certificate_checks.specs.steps.ComputedStability.{AgreesWith, AgreesWithFirst, labels_by};
ghost use Rattle.certificate_checks.specs.steps.Places.{by_place};

use crate::classes::{Classes, classes_of};
use crate::first_members::Firsts;
use std::alloc::{AllocError, Global};
use std::collections::BTreeSet;
use step_values::labels::Labels;
use step_values::slot::Slots;
use step_values::value_agreement::same_each;
use value_equality::plain::Plain;
use value_equality::row::{RowSlot, is_one_kind};
use value_equality::table::Table;

/// Whether the last round of a table is stable: any two instances that share a class there are
/// free, have the same section and the same types, and have values that agree under that round.
///
/// The members of the table are the names of the input, in order.
pub fn is_stable<'a>(
    alloc: Global,
    input: &Plain<'a>,
    pinned: &BTreeSet<u64>,
    table: &Table,
) -> Result<bool, AllocError>
    requires members { HasMembers input.now (table_of table.now) }
    requires well_formed { IsWellFormed (table_of table.now) }
    ensures { IfOk result (λ b. IsTrue b ↔ IsStable input.now (is_pinned pinned.now)
        (shares (table_of table.now) table.now.rounds)) }
{
    // its contract says that no name occurs twice and each reference names a row
    let _rows = input.len();
    let firsts = Firsts::of(alloc, input, table)?;
    let classes = classes_of(alloc, &table.members)?;
    let classes = Classes {
        input,
        pinned,
        classes,
    };
    rows_agree(alloc, &classes, &firsts)
}

/// Whether each row agrees with the first of its class. This is enough for any two of a class,
/// because agreement under a partition is an equivalence.
fn rows_agree<'a, 'p>(
    alloc: Global,
    classes: &Classes<'a, 'p>,
    firsts: &Firsts<'a, 'p>,
) -> Result<bool, AllocError>
    requires { firsts.now.input.now ≡ classes.now.input.now }
    ensures { IfOk result (λ b. IsTrue b ↔ ((i : ℕ) (r : Row)
        → slice_get classes.now.input.now i ≡ Some r
        → AgreesWithFirst classes.now.input.now (is_pinned classes.now.pinned.now)
        (labels_by (is_pinned classes.now.pinned.now) classes.now.input.now
        classes.now.classes.items)
        (by_place classes.now.input.now firsts.now.firsts.items) r)) }
{
    for place in 0..classes.input.len() {
        if !row_agrees(alloc, classes, firsts, &classes.input.row(place))? {
            return Ok(false);
        }
    }
    Ok(true)
}

/// Whether a row agrees with the first of its class.
fn row_agrees<'a, 'p, 'q>(
    alloc: Global,
    classes: &Classes<'a, 'p>,
    firsts: &Firsts<'a, 'p>,
    row: &RowSlot<'q, 'a>,
) -> Result<bool, AllocError>
    requires { firsts.now.input.now ≡ classes.now.input.now }
    ensures { IfOk result (λ b. IsTrue b ↔ AgreesWithFirst classes.now.input.now
        (is_pinned classes.now.pinned.now)
        (labels_by (is_pinned classes.now.pinned.now) classes.now.input.now
        classes.now.classes.items)
        (by_place classes.now.input.now firsts.now.firsts.items) (row_seen row.now)) }
{
    let first = firsts.first(row.name);
    if first == row.name {
        return Ok(true);
    }
    agrees_with(alloc, classes, row, first)
}

/// Whether a row agrees with the row named `other`: both are free and of the same kind, and their
/// values agree by classes.
fn agrees_with<'a, 'p, 'q>(
    alloc: Global,
    classes: &Classes<'a, 'p>,
    row: &RowSlot<'q, 'a>,
    other: u64,
) -> Result<bool, AllocError>
    ensures { IfOk result (λ b. IsTrue b ↔ AgreesWith classes.now.input.now
        (is_pinned classes.now.pinned.now)
        (labels_by (is_pinned classes.now.pinned.now) classes.now.input.now
        classes.now.classes.items)
        (row_seen row.now) other) }
{
    if classes.pinned.contains(&row.name) {
        return Ok(false);
    }
    if classes.pinned.contains(&other) {
        return Ok(false);
    }
    let Some(place) = classes.input.find(other) else {
        return Ok(false);
    };
    let first = classes.input.row(place);
    if !is_one_kind(row, &first) {
        return Ok(false);
    }
    same_by(alloc, classes, &row.values, &first.values)
}

/// Whether two lists of values agree, with references compared by their labels.
fn same_by<'x, 'a, 'y, 'b, F: Labels>(
    alloc: Global,
    labels: &F,
    vs: &Slots<'x, 'a>,
    ws: &Slots<'y, 'b>,
) -> Result<bool, AllocError>
    ensures { IfOk result (λ b. IsTrue b ↔
        AgreeEachBy (F.labelling labels.now) (F.labelling labels.now) vs.now ws.now) }
{
    same_each(alloc, labels, labels, vs, ws)
}
