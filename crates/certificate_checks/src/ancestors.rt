//! The ancestors of the classes of a table at a round.

ghost use Rattle.std.specs.Prelude.{◌≡◌, ◌<◌, ℕ, IfOk, Some, length, slice_get};
ghost use Rattle.value_equality.specs.Standard.{IsWellFormed};
ghost use Rattle.value_equality.specs.Tables.{ancestor_of};
ghost use Rattle.value_equality.specs.TableViews.{table_of};
ghost use Rattle.certificate_checks.specs.steps.ComputedParents.{AreAncestors};

use std::alloc::{AllocError, Global};
use value_equality::table::{Origin, Table};

/// Returns, for each class of a well-formed table, the nearest class that had begun by the round,
/// from that class up the chain of parents.
///
/// Each class is visited once, so a long chain of parents costs nothing more.
pub fn ancestors(alloc: Global, table: &Table, round: u32) -> Result<Vec<usize>, AllocError>
    requires { IsWellFormed (table_of table.now) }
    ensures length { IfOk result (λ v. length v.items ≡ length table.now.classes.items) }
    ensures ancestors { IfOk result (λ v. (c : ℕ)
        → slice_get v.items c ≡ ancestor_of (table_of table.now).classes round (Some c)) }
{
    let mut ancestors = Vec::with_capacity(alloc, table.classes.len())?;
    for class in 0..table.classes.len() {
        let ancestor = ancestor_of(table, &ancestors, class, round);
        ancestors.push(ancestor)?;
    }
    Ok(ancestors)
}

/// Returns the ancestor of a class at a round, from those of the classes before it.
fn ancestor_of(table: &Table, ancestors: &[usize], class: usize, round: u32) -> usize
    requires well_formed { IsWellFormed (table_of table.now) }
    requires within { class < length table.now.classes.items }
    requires before { AreAncestors (table_of table.now) round ancestors.now class }
    ensures { Some result ≡ ancestor_of (table_of table.now).classes round (Some class) }
{
    let Origin::Split {
        parent,
        round: since,
    } = table.classes[class]
    else {
        return class;
    };
    if since <= round {
        return class;
    }
    ancestors[parent as usize]
}
