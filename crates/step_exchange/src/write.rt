//! The normal text of an exchange structure.

ghost use Rattle.std.specs.Prelude.{◌≡◌, false, is_err};
ghost use Rattle.devices.specs.Emits.{Emits};
ghost use Rattle.step_exchange.specs.Exchanges.{structure, normal_text};
ghost use Rattle.step_structures.specs.Normal.{normal_file};
ghost use Rattle.step_structures.specs.Texts.{ReadsAs};

use crate::print::write_led;
use crate::reference_targets::Itself;
use crate::structure::Exchange;
use devices::device::{Sink, WriteFault};

/// Writes the normal text of an exchange structure: its header bytes unchanged, then its data
/// sections. These have a line for each instance, in the order of the file.
///
/// The normal text reads as the same header and the same sections, with their headings and
/// instances. Only the case of words and the spelling of names may differ.
///
/// # Errors
///
/// - `WriteFault` if the sink fails; a prefix of the text was written, and the fault has its length
pub fn write_plain<S: Sink>(exchange: &Exchange<'_>, out: &mut S) -> Result<(), WriteFault>
    ensures emits { Emits (S.held out.old) (S.held out.new) (normal_text exchange.now) result }
    ensures failed { S.has_failed out.old ≡ false → S.has_failed out.new ≡ is_err result }
    ensures again { ∥ ReadsAs (normal_text exchange.now)
        exchange.now.header_bytes.now (normal_file (structure exchange.now)) ∥₁ }
{
    write_led(exchange, &Itself, out)
}
