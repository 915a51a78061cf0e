//! Writing the smaller file and its certificate.

ghost use Rattle.std.specs.Prelude.{◌≡◌, false};
ghost use Rattle.value_equality.specs.TableViews.{table_of};
ghost use Rattle.files.specs.declared.fault.Role.TheVariants as roles;
ghost use Rattle.merge_output.specs.steps.Rewriting.{members, smaller_text};
ghost use Rattle.certificate_text.specs.Texts.{certificate_text};
ghost use Rattle.shrinking.specs.steps.ComputedAnswers.{Writes, is_written};
ghost use Rattle.shrinking.specs.steps.Faults.{rewrite_fault};
ghost use Rattle.shrinking.specs.Shrinking.{written_to};

use certificate_text::write::write_certificate;
use devices::device::Sink;
use files::fault::{FileFault, Role};
use merge_output::fault::RewriteFault;
use merge_output::rewrite::rewrite;
use resources::Resources;
use step_exchange::structure::Exchange;
use value_equality::table::Table;

/// Returns the fault of a smaller file that isn't written.
fn of_rewrite(fault: RewriteFault) -> FileFault
    ensures { result ≡ rewrite_fault fault }
{
    match fault {
        RewriteFault::Device { written } => FileFault::Device {
            role: Role::Output,
            written,
        },
        RewriteFault::Memory => FileFault::Memory,
    }
}

/// Writes the smaller file of an exchange structure by the second table, then the certificate of
/// both tables. Names are hashed with the keys of `resources`.
pub(crate) fn write_both<O: Sink, C: Sink>(
    resources: Resources,
    exchange: &Exchange<'_>,
    first: &Table,
    second: &Table,
    out: &mut O,
    certificate: &mut C,
) -> Result<(), FileFault>
    requires members { members (table_of second.now) ≡ exchange.now.names }
    ensures writes { Writes (written_to O.held out.old out.new)
        (written_to C.held certificate.old certificate.new)
        (smaller_text exchange.now (table_of second.now))
        (certificate_text (table_of first.now) (table_of second.now)) result }
    ensures output_fault { O.has_failed out.old ≡ false
        → O.has_failed out.new ≡ is_written roles.Output result }
    ensures certificate_fault { C.has_failed certificate.old ≡ false
        → C.has_failed certificate.new ≡ is_written roles.Certificate result }
{
    if let Err(fault) = rewrite(resources.alloc, resources.keys, exchange, second, out) {
        return Err(of_rewrite(fault));
    }
    match write_certificate(first, second, certificate) {
        Ok(()) => Ok(()),
        Err(fault) => Err(FileFault::of_write(Role::Certificate, fault)),
    }
}
