//! The parts of rows: their names, their heads, and their lists of types.

ghost use Rattle.std.specs.Prelude.{◌≡◌, ◌<◌, length, map, IfOk};
ghost use Rattle.step_values.specs.Views.{word_of};
ghost use Rattle.value_equality.specs.steps.ComputedHeads.{type_lists_within, numbered_heads};
ghost use Rattle.value_equality.specs.Rows.{names};
ghost use Rattle.value_equality.specs.Views.{type_lists_of, rows_of, types_at};

use crate::row::{PlainRow, RowHead};
use std::alloc::{AllocError, Global};
use step_literals::literal::Word;

/// Returns the names of rows, in order.
pub(crate) fn row_names<'a>(alloc: Global, rows: &[PlainRow<'a>]) -> Result<Vec<u64>, AllocError>
    ensures { IfOk result (λ ns. ns.items ≡ names (rows_of rows.now)) }
{
    let mut names = Vec::with_capacity(alloc, rows.len())?;
    for row in rows {
        names.push(row.name)?;
    }
    Ok(names)
}

/// Returns the head of each row. Each row has a list of types of its own.
pub(crate) fn heads_of<'a>(alloc: Global, rows: &[PlainRow<'a>]) -> Result<Vec<RowHead>, AllocError>
    requires few { length rows.now < 4294967296 }
    ensures { IfOk result (λ heads. heads.items ≡ numbered_heads 0 rows.now) }
{
    let mut heads = Vec::with_capacity(alloc, rows.len())?;
    for i in 0..rows.len() {
        let row = &rows[i];
        heads.push(RowHead {
            name: row.name,
            section: row.section,
            type_list: i as u32,
        })?;
    }
    Ok(heads)
}

/// Returns the types of each row.
pub(crate) fn type_lists_of<'a>(
    alloc: Global,
    rows: Vec<PlainRow<'a>>,
) -> Result<Vec<Vec<Word<'a>>>, AllocError>
    ensures { IfOk result (λ lists. type_lists_of lists.items
        ≡ type_lists_within rows.entry.items) }
{
    let mut type_lists = Vec::with_capacity(alloc, rows.len())?;
    for row in rows {
        type_lists.push(row.types)?;
    }
    Ok(type_lists)
}

/// Returns the list of types with this number; empty if the number is beyond all lists.
pub(crate) fn types_at<'p, 'a>(type_lists: &'p [Vec<Word<'a>>], number: u32) -> &'p [Word<'a>]
    ensures { map word_of result.now ≡ types_at (type_lists_of type_lists.entry.now) number }
{
    if number as usize >= type_lists.len() {
        return &[];
    }
    &type_lists[number as usize]
}
