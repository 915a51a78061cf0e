//! Whether an output is the quotient by a table.

ghost use Rattle.std.specs.Prelude.{◌≡◌, ◌↔◌, IfOk, IsTrue};
ghost use Rattle.std.specs.List.{list_all};
ghost use Rattle.value_equality.specs.Images.{quotient};
ghost use Rattle.value_equality.specs.steps.ComputedImages.{row_lands};
ghost use Rattle.value_equality.specs.Rows.{SamePopulation, row_at};
ghost use Rattle.value_equality.specs.Standard.{IsWellFormed};
ghost use Rattle.value_equality.specs.Tables.{HasMembers, shares};
ghost use Rattle.value_equality.specs.TableViews.{table_of};
ghost use Rattle.value_equality.specs.Views.{row_seen};
ghost use Rattle.certificate_checks.specs.steps.ComputedFirsts.{first_lands, is_first};
ghost use Rattle.certificate_checks.specs.steps.Places.{by_place};

use crate::first_members::Firsts;
use std::alloc::{AllocError, Global};
use step_values::labels::Itself;
use step_values::value_agreement::same_each;
use value_equality::plain::Plain;
use value_equality::row::{RowSlot, is_one_kind};
use value_equality::table::Table;

/// Whether the output is the quotient of the input by the classes of a table at its last round: the
/// first member of each class, with each reference replaced by the first member of its target's
/// class. The order of rows and the spelling of literals don't count.
///
/// The members of the table are the names of the input, in order.
pub fn is_merged<'a, 'b>(
    alloc: Global,
    input: &Plain<'a>,
    table: &Table,
    output: &Plain<'b>,
) -> Result<bool, AllocError>
    requires members { HasMembers input.now (table_of table.now) }
    requires well_formed { IsWellFormed (table_of table.now) }
    ensures { IfOk result (λ b. IsTrue b ↔ SamePopulation output.now
        (quotient input.now (shares (table_of table.now) table.now.rounds))) }
{
    // its contract says that no name occurs twice
    let _rows = input.len();
    let firsts = Firsts::of(alloc, input, table)?;
    if !firsts_land(alloc, &firsts, output)? {
        return Ok(false);
    }
    Ok(are_firsts(&firsts, output))
}

/// Whether each instance that is the first member of its class is in the output, with its
/// references replaced by first members.
fn firsts_land<'a, 'p, 'b>(
    alloc: Global,
    firsts: &Firsts<'a, 'p>,
    output: &Plain<'b>,
) -> Result<bool, AllocError>
    ensures { IfOk result (λ b. b ≡ list_all (first_lands
        (by_place firsts.now.input.now firsts.now.firsts.items) output.now) firsts.now.input.now) }
{
    for place in 0..firsts.input.len() {
        if !first_lands(alloc, firsts, &firsts.input.row(place), output)? {
            return Ok(false);
        }
    }
    Ok(true)
}

/// Whether a row, if it is the first member of its class, is in the output with its references
/// replaced by first members.
fn first_lands<'a, 'p, 'q, 'b>(
    alloc: Global,
    firsts: &Firsts<'a, 'p>,
    row: &RowSlot<'q, 'a>,
    output: &Plain<'b>,
) -> Result<bool, AllocError>
    ensures { IfOk result (λ b. b ≡ first_lands
        (by_place firsts.now.input.now firsts.now.firsts.items) output.now (row_seen row.now)) }
{
    let first = firsts.first(row.name);
    if first != row.name {
        return Ok(true);
    }
    row_lands(alloc, firsts, row, output, first)
}

/// Whether the output has a row with this name that agrees with `row`, whose references are
/// replaced by first members.
fn row_lands<'a, 'p, 'q, 'b>(
    alloc: Global,
    firsts: &Firsts<'a, 'p>,
    row: &RowSlot<'q, 'a>,
    output: &Plain<'b>,
    name: u64,
) -> Result<bool, AllocError>
    ensures { IfOk result (λ b. b ≡ row_lands
        (by_place firsts.now.input.now firsts.now.firsts.items)
        (row_seen row.now) (row_at output.now name)) }
{
    let Some(place) = output.find(name) else {
        return Ok(false);
    };
    let other = output.row(place);
    if !is_one_kind(row, &other) {
        return Ok(false);
    }
    same_each(alloc, firsts, &Itself, &row.values, &other.values)
}

/// Whether each row of the output has the name of an instance that is the first member of its class.
fn are_firsts<'a, 'p, 'b>(firsts: &Firsts<'a, 'p>, output: &Plain<'b>) -> bool
    ensures { result ≡ list_all (λ q. is_first firsts.now.input.now
        (by_place firsts.now.input.now firsts.now.firsts.items) q.name) output.now }
{
    for place in 0..output.len() {
        if !firsts.is_first(output.name(place)) {
            return false;
        }
    }
    true
}
