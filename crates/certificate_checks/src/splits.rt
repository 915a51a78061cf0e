//! Whether each split has a ground.

ghost use Rattle.std.specs.Prelude.{◌↔◌, IfOk, IsTrue};
ghost use Rattle.value_equality.specs.Maps.{is_pinned};
ghost use Rattle.value_equality.specs.Standard.{IsWellFormed};
ghost use Rattle.value_equality.specs.Tables.{HasMembers};
ghost use Rattle.value_equality.specs.TableViews.{table_of};
ghost use Rattle.row_signatures.specs.steps.Signatures.{AreSignatures, none_pinned};
ghost use Rattle.certificate_checks.specs.steps.Splits.{SplitsHaveGrounds};

use crate::births::births_of;
use crate::classes::classes_of;
use crate::pin_numbers::own_numbers;
use row_signatures::signatures::Signatures;
use split_checks::grounds::have_grounds;
use std::alloc::{AllocError, Global};
use std::collections::BTreeSet;
use value_equality::plain::Plain;
use value_equality::table::Table;

/// Whether each split after round 0 has a ground: any two instances that share a class at a round,
/// and whose values agree under it, share one at the next.
///
/// The members of the table are the names of the input, in order, and the signatures are those of
/// all its rows. For `n` instances, references and classes together, the time is at most about `n`
/// times the square of the logarithm of `n`, whatever the table.
pub fn splits_have_grounds<'a>(
    alloc: Global,
    input: &Plain<'a>,
    pinned: &BTreeSet<u64>,
    signatures: &Signatures,
    table: &Table,
) -> Result<bool, AllocError>
    requires members { HasMembers input.now (table_of table.now) }
    requires well_formed { IsWellFormed (table_of table.now) }
    requires signatures { AreSignatures input.now none_pinned signatures.now }
    ensures { IfOk result (λ b. IsTrue b
        ↔ SplitsHaveGrounds input.now (is_pinned pinned.now) (table_of table.now)) }
{
    // its contract says that no name occurs twice and each reference names a row
    let _rows = input.len();
    let classes = table.classes.len();
    let births = births_of(alloc, &table.classes)?;
    let last = classes_of(alloc, &table.members)?;
    let own = own_numbers(alloc, input, pinned)?;
    have_grounds(
        alloc,
        classes,
        births,
        &last,
        &own,
        &signatures.shapes,
        &signatures.edges,
    )
}
