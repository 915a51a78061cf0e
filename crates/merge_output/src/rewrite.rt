//! The smaller file.

ghost use Rattle.std.specs.Prelude.{◌≡◌, false};
ghost use Rattle.value_equality.specs.TableViews.{table_of};
ghost use Rattle.step_structures.specs.Normal.{normal_file};
ghost use Rattle.step_structures.specs.Texts.{ReadsAs};
ghost use Rattle.step_exchange.specs.Exchanges.{structure};
ghost use Rattle.step_structures.specs.MergedTexts.{merged_file};
ghost use Rattle.merge_output.specs.steps.Rewriting.{
  Rewrites,
  first_of_class,
  is_device,
  members,
  smaller_text,
};

use crate::fault::RewriteFault;
use crate::first_members::heads_of;
use crate::reference_targets::Heads;
use devices::device::Sink;
use population_rows::index::RowIndex;
use std::alloc::Global;
use std::hash::RandomState;
use step_exchange::print::write_led;
use step_exchange::structure::Exchange;
use value_equality::table::Table;

/// Writes the smaller file of an exchange structure, according to the classes of `table` at its
/// last round:
///
/// - the header bytes, unchanged,
/// - in each data section one line for each instance that is the first of its class in the file,
/// - each reference as a reference to the first instance of its class; a reference to no instance
///   stays,
/// - literals with their spelling.
///
/// The members of the table must be the instances, in order. If names are far apart, they are
/// hashed by `keys`.
///
/// # Errors
///
/// - `Device` if the sink fails: a prefix of the text was written, whose length the fault has,
/// - `Memory` if memory runs out: nothing was written.
pub fn rewrite<S: Sink>(
    alloc: Global,
    keys: RandomState,
    exchange: &Exchange<'_>,
    table: &Table,
    out: &mut S,
) -> Result<(), RewriteFault>
    requires members { members (table_of table.now) ≡ exchange.now.names }
    ensures rewrites { Rewrites (S.held out.old) (S.held out.new)
        (smaller_text exchange.now (table_of table.now)) result }
    ensures failed { S.has_failed out.old ≡ false → S.has_failed out.new ≡ is_device result }
    ensures reads { ∥ ReadsAs (smaller_text exchange.now (table_of table.now))
        exchange.now.header_bytes.now
        (normal_file (merged_file (first_of_class (table_of table.now)) (structure exchange.now)))
        ∥₁ }
{
    let heads = match heads_of(alloc, table) {
        Ok(heads) => heads,
        Err(_) => return Err(RewriteFault::Memory),
    };
    let index = match RowIndex::of(alloc, keys, exchange.names.as_slice()) {
        Ok(index) => index,
        Err(_) => return Err(RewriteFault::Memory),
    };
    let leads = Heads {
        index: &index,
        heads: &heads,
    };
    match write_led(exchange, &leads, out) {
        Ok(()) => Ok(()),
        Err(fault) => Err(RewriteFault::Device {
            written: fault.written,
        }),
    }
}
