//! The command `plain`: the normal text of a file.

ghost use Rattle.std.specs.Prelude.{◌≡◌, false, IfSome};
ghost use Rattle.commands.specs.Plain.{FailsAs, Plain, is_file_fault, is_output_fault};

use devices::device::{Sink, Source};
use files::fault::{FileFault, LIMIT, Role};
use files::read::read_whole;
use resources::Resources;
use step_exchange::exchange::read_exchange;
use step_exchange::write::write_plain;

/// Reads `source` to its end, and writes the normal text of its exchange structure to `out`. All
/// bytes are read before the first byte is written. Names are hashed with the keys of `resources`.
///
/// # Errors
/// Faults carry the role `File` for the source and `Output` for `out`.
///
/// - `Text` if the bytes aren't an exchange structure, or (`TooLarge`) are more than 2^40.
/// - `Device` if source or output fails.
/// - `Memory` if memory runs out.
pub fn plain<S: Source, O: Sink>(
    resources: Resources,
    source: &mut S,
    out: &mut O,
) -> Result<(), FileFault>
    // The whole normal text was written, or nothing, or a prefix of it.
    ensures plain { Plain (S.to_come source.old) (O.held out.old) (O.held out.new) result }
    // The fault is the file's exactly if the source failed, and the output's exactly if that
    // failed.
    ensures file_fault { S.has_failed source.old ≡ false
        → S.has_failed source.new ≡ is_file_fault result }
    ensures output_fault { O.has_failed out.old ≡ false
        → O.has_failed out.new ≡ is_output_fault result }
    // A source that can't fail has no fault. One that always fails has one.
    ensures told { IfSome (S.fails source.old) (FailsAs result) }
{
    let bytes = match read_whole(resources.alloc, source, LIMIT) {
        Ok(bytes) => bytes,
        Err(fault) => return Err(FileFault::of_read(Role::File, fault)),
    };
    let exchange = match read_exchange(resources.alloc, resources.keys, &bytes) {
        Ok(exchange) => exchange,
        Err(fault) => return Err(FileFault::of_text(Role::File, fault)),
    };
    match write_plain(&exchange, out) {
        Ok(()) => Ok(()),
        Err(fault) => Err(FileFault::of_write(Role::Output, fault)),
    }
}
