//! Smaller files according to lists of classes.

ghost use Rattle.std.specs.Prelude.{◌≡◌, IfOk, map};
ghost use Rattle.value_equality.specs.TableViews.{table_of};
ghost use Rattle.merge_output.specs.steps.Rewriting.{members};

use crate::sink::Limited;
use devices::counted::Counted;
use merge_output::fault::RewriteFault;
use merge_output::rewrite::rewrite;
use std::alloc::{AllocError, Global};
use std::hash::RandomState;
use step_exchange::exchange::read_exchange;
use step_exchange::structure::Exchange;
use value_equality::table::{Origin, Table};

/// The classes of a table: its last round, how each class began, and the class of each instance in
/// turn. Instances after the end of the list have class 0.
#[derive(Clone, Copy)]
pub(crate) struct Classes {
    pub(crate) rounds: u32,
    pub(crate) origins: &'static [Origin],
    pub(crate) each: &'static [u32],
}

/// Returns names with the classes of a list, 0 after its end.
fn members_of(alloc: Global, names: &[u64], classes: &[u32]) -> Result<Vec<(u64, u32)>, AllocError>
    ensures { IfOk result (λ v. map (λ m. m.0) v.items ≡ names.now) }
{
    let mut members = Vec::with_capacity(alloc, names.len())?;
    for i in 0..names.len() {
        let class = classes.get(i).copied().unwrap_or(0);
        members.push((names[i], class))?;
    }
    Ok(members)
}

/// Returns the table of an exchange structure.
fn table(alloc: Global, exchange: &Exchange<'_>, classes: Classes) -> Result<Table, AllocError>
    ensures { IfOk result (λ t. members (table_of t) ≡ exchange.now.names) }
{
    Ok(Table {
        rounds: classes.rounds,
        classes: classes.origins.to_vec(alloc)?,
        members: members_of(alloc, exchange.names.as_slice(), classes.each)?,
    })
}

/// Writes the smaller file of an exchange structure to a sink with this room. Returns the bytes
/// written, or `None` if the result isn't `wanted`.
fn sent_of(
    alloc: Global,
    keys: RandomState,
    exchange: &Exchange<'_>,
    classes: Classes,
    room: usize,
    wanted: Result<(), RewriteFault>,
) -> Option<Vec<u8>> {
    let table = table(alloc, exchange, classes).ok()?;
    let mut sink = Counted::new(Limited {
        bytes: Vec::new(alloc),
        step: 7,
        room,
    });
    if rewrite(alloc, keys, exchange, &table, &mut sink) == wanted {
        Some(sink.into_inner().bytes)
    } else {
        None
    }
}

/// Writes the smaller file of a text to a sink with this room. Returns the bytes written, or `None`
/// if the result isn't `wanted`.
pub(crate) fn sent(
    alloc: Global,
    keys: RandomState,
    text: &[u8],
    classes: Classes,
    room: usize,
    wanted: Result<(), RewriteFault>,
) -> Option<Vec<u8>> {
    match read_exchange(alloc, keys, text) {
        Ok(exchange) => sent_of(alloc, keys, &exchange, classes, room, wanted),
        Err(_) => None,
    }
}
