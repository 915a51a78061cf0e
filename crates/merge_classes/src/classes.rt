//! The classes of value-equal instances.

ghost use Rattle.std.specs.Prelude.{◌≡◌, ◌≤◌, ◌<◌, ◌^◌, All, IfOk, MatchOption, length};
ghost use Rattle.value_equality.specs.Maps.{is_pinned};
ghost use Rattle.value_equality.specs.Standard.{IsStandard};
ghost use Rattle.value_equality.specs.TableViews.{table_of};
ghost use Rattle.value_equality.specs.Tables.{class_at};
ghost use Rattle.row_signatures.specs.steps.Signatures.{AreSignatures};
ghost use Rattle.merge_classes.specs.steps.Heads.{IsHead};

use crate::numbered_classes::{find, find_last};
use crate::tables::classes_of;
use row_signatures::signatures::{Signatures, signatures_of};
use std::alloc::{AllocError, Global};
use std::collections::BTreeSet;
use std::hash::RandomState;
use std::marker::Model;
use value_equality::plain::Plain;
use value_equality::table::Table;

/// The classes of value-equal instances of a population, and the rounds of partition refinement in
/// which they arose: a table of classes by rounds. Contracts view it as that table.
#[derive(Drop)]
pub struct Classes {
    pub(crate) table: Table,
    /// By class, the position of its first member among all members.
    pub(crate) firsts: Vec<u32>,
    pub(crate) signed: u64,
}

impl Model for Classes {
    ghost use Rattle.value_equality.specs.Tables as tables;
    ghost use Rattle.value_equality.specs.TableViews.{table_of};
    ghost use Rattle.merge_classes.specs.steps.ComputedFirsts.{AreFirsts};

    ghost Value = { tables.Table };

    ghost view = { λ c. table_of c.table };

    ghost invariant = { λ c. AreFirsts (table_of c.table) c.firsts.items };
}

/// Returns the classes of a population's value-equal instances, with these names pinned. A name in
/// `pinned` that no instance has pins nothing.
///
/// The table is the standard one:
///
/// - Round 0 separates instances of different kinds, and each pinned instance from all others.
/// - Each later round separates instances whose values disagree under the classes of the round
///   before.
/// - No round after the last one would split a class. The number of the last round is at most that of
///   the instances. After it, two instances share a class exactly if they are value-equal.
/// - Classes are numbered by the round in which they begin, then by their first instance.
///
/// The running time depends on the number of values and references and its logarithm, but not on
/// the number of rounds. Kinds and values are hashed by `keys`.
pub fn refine<'a>(
    alloc: Global,
    keys: RandomState,
    input: &Plain<'a>,
    pinned: &BTreeSet<u64>,
) -> Result<Classes, AllocError>
    ensures standard { IfOk result (λ t. IsStandard input.now (is_pinned pinned.now) t) }
    ensures rounds { IfOk result (λ t. t.rounds ≤ length input.now) }
    ensures short_rounds { IfOk result (λ t. t.rounds < 2 ^ 32) }
    ensures short_classes { IfOk result (λ t. length t.classes < 2 ^ 32) }
    ensures short_names { IfOk result (λ t. All (λ m. m.0 < 2 ^ 64) t.members) }
{
    let signatures = signatures_of(alloc, keys, input, pinned)?;
    refine_last(alloc, keys, input, pinned, signatures)
}

/// Returns the classes of [`refine`], from shapes and references of rows that are already known.
/// `signatures` may belong to these pins or to fewer. Kinds are hashed by `keys`.
pub fn refine_by<'a>(
    alloc: Global,
    keys: RandomState,
    input: &Plain<'a>,
    pinned: &BTreeSet<u64>,
    signatures: &Signatures,
) -> Result<Classes, AllocError>
    requires { AreSignatures input.now (is_pinned pinned.now) signatures.now }
    ensures standard { IfOk result (λ t. IsStandard input.now (is_pinned pinned.now) t) }
    ensures rounds { IfOk result (λ t. t.rounds ≤ length input.now) }
    ensures short_rounds { IfOk result (λ t. t.rounds < 2 ^ 32) }
    ensures short_classes { IfOk result (λ t. length t.classes < 2 ^ 32) }
    ensures short_names { IfOk result (λ t. All (λ m. m.0 < 2 ^ 64) t.members) }
{
    // The contract of `len` says that names are distinct, and that there are fewer than 2^32.
    let _rows = input.len();
    let found = find(alloc, keys, input, pinned, signatures)?;
    classes_of(alloc, input, found)
}

/// Returns the classes of [`refine`], from shapes and references of rows that aren't needed
/// afterwards. `signatures` may belong to these pins or to fewer; they are freed before classes are
/// numbered. Kinds are hashed by `keys`.
pub fn refine_last<'a>(
    alloc: Global,
    keys: RandomState,
    input: &Plain<'a>,
    pinned: &BTreeSet<u64>,
    signatures: Signatures,
) -> Result<Classes, AllocError>
    requires { AreSignatures input.now (is_pinned pinned.now) signatures }
    ensures standard { IfOk result (λ t. IsStandard input.now (is_pinned pinned.now) t) }
    ensures rounds { IfOk result (λ t. t.rounds ≤ length input.now) }
    ensures short_rounds { IfOk result (λ t. t.rounds < 2 ^ 32) }
    ensures short_classes { IfOk result (λ t. length t.classes < 2 ^ 32) }
    ensures short_names { IfOk result (λ t. All (λ m. m.0 < 2 ^ 64) t.members) }
{
    // The contract of `len` says that names are distinct, and that there are fewer than 2^32.
    let _rows = input.len();
    let found = find_last(alloc, keys, input, pinned, signatures)?;
    classes_of(alloc, input, found)
}

impl Classes {
    /// Returns the table of classes by rounds.
    pub fn split_table(&self) -> &Table
        ensures { table_of result.now ≡ self.now }
    {
        &self.table
    }

    /// Returns the table of classes by rounds, and frees the rest.
    pub fn into_table(self) -> Table
        ensures { table_of result ≡ self }
    {
        self.table
    }

    /// Returns the name of the first member of a class after the last round, in the order of the
    /// population, or `None` if no class has this number.
    pub fn head_of(&self, class: u32) -> Option<u64>
        ensures { MatchOption result (length self.now.classes ≤ class)
            (λ name. IsHead self.now class name) }
    {
        let place = *self.firsts.get(class as usize)?;
        Some(self.table.members[place as usize].0)
    }

    /// Returns the class of the instance with this name after the last round, or `None` if no
    /// instance has this name.
    ///
    /// Each call searches the members from the first on. For many names, iterate over the table
    /// once instead.
    pub fn class_of(&self, name: u64) -> Option<u32>
        ensures { result ≡ class_at self.now name self.now.rounds }
    {
        Table::class_at(&self.table, name, self.table.rounds)
    }

    /// Returns a measure of the work of the refinement, at most 2^64 - 1: one for each instance
    /// that shares its class of round 0 with another, and one for each reference that a later round
    /// examined. Contracts don't mention it.
    pub fn signed(&self) -> u64 {
        self.signed
    }
}
