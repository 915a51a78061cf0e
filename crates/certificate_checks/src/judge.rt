//! Whether a table is valid for a population.

ghost use Rattle.std.specs.Prelude.{◌↔◌, IfOk, IsTrue, MatchResult};
ghost use Rattle.value_equality.specs.Maps.{is_pinned};
ghost use Rattle.value_equality.specs.Standard.{IsWellFormed};
ghost use Rattle.value_equality.specs.Tables.{HasMembers, IsGrounded, IsValid, shares};
ghost use Rattle.value_equality.specs.TableViews.{table_of};
ghost use Rattle.row_signatures.specs.steps.Signatures.{AreSignatures, none_pinned};
ghost use Rattle.certificate_checks.specs.TableFaults.{IsTableFaultOf};

use crate::fault::TableFault;
use crate::members::names_match;
use crate::splits::splits_have_grounds;
use crate::stable_rounds::is_stable;
use crate::starts::starts_together;
use row_signatures::signatures::{Signatures, all_signatures};
use std::alloc::{AllocError, Global};
use std::collections::BTreeSet;
use std::hash::RandomState;
use value_equality::plain::Plain;
use value_equality::table::Table;

/// Checks whether a table is valid: its members are the instances, each of its splits has a ground,
/// and its last round is stable.
///
/// Kinds and values are hashed with `keys`.
///
/// # Errors
///
/// - `Members` if the members aren't the names of the instances, in order;
/// - `Ground` if otherwise a start or a split has no ground;
/// - `Stable` if otherwise the last round isn't stable;
/// - `Memory` if memory runs out.
pub fn judge<'a>(
    alloc: Global,
    keys: RandomState,
    input: &Plain<'a>,
    pinned: &BTreeSet<u64>,
    table: &Table,
) -> Result<(), TableFault>
    requires { IsWellFormed (table_of table.now) }
    ensures { MatchResult result
        (λ _. IsValid input.now (is_pinned pinned.now) (table_of table.now))
        (IsTableFaultOf input.now (is_pinned pinned.now) (table_of table.now)) }
{
    let signatures = all_signatures(alloc, keys, input)?;
    judge_by(alloc, keys, input, pinned, &signatures, table)
}

/// Checks whether a table is valid, as [`judge`] does, if the signatures of all rows are known.
///
/// The signatures treat all instances as free. A class of a given table may hold pinned instances
/// and others until a round parts them, and their values decide whether that split has a ground.
/// Kinds are hashed with `keys`.
///
/// # Errors
///
/// - `Members` if the members aren't the names of the instances, in order;
/// - `Ground` if otherwise a start or a split has no ground;
/// - `Stable` if otherwise the last round isn't stable;
/// - `Memory` if memory runs out.
pub fn judge_by<'a>(
    alloc: Global,
    keys: RandomState,
    input: &Plain<'a>,
    pinned: &BTreeSet<u64>,
    signatures: &Signatures,
    table: &Table,
) -> Result<(), TableFault>
    requires well_formed { IsWellFormed (table_of table.now) }
    requires signatures { AreSignatures input.now none_pinned signatures.now }
    ensures { MatchResult result
        (λ _. IsValid input.now (is_pinned pinned.now) (table_of table.now))
        (IsTableFaultOf input.now (is_pinned pinned.now) (table_of table.now)) }
{
    if !names_match(input, table) {
        return Err(TableFault::Members);
    }
    if !has_grounds(alloc, keys, input, pinned, signatures, table)? {
        return Err(TableFault::Ground);
    }
    if !is_stable(alloc, input, pinned, table)? {
        return Err(TableFault::Stable);
    }
    Ok(())
}

/// Whether instances that are alike start in one class, and each split has a ground.
fn has_grounds<'a>(
    alloc: Global,
    keys: RandomState,
    input: &Plain<'a>,
    pinned: &BTreeSet<u64>,
    signatures: &Signatures,
    table: &Table,
) -> Result<bool, AllocError>
    requires members { HasMembers input.now (table_of table.now) }
    requires well_formed { IsWellFormed (table_of table.now) }
    requires signatures { AreSignatures input.now none_pinned signatures.now }
    ensures { IfOk result (λ b. IsTrue b ↔ IsGrounded input.now (is_pinned pinned.now)
        (shares (table_of table.now)) table.now.rounds) }
{
    if !starts_together(alloc, keys, input, pinned, table)? {
        return Ok(false);
    }
    splits_have_grounds(alloc, input, pinned, signatures, table)
}
