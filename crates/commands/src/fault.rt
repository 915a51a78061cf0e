//! Why a file isn't checked, merged or verified: what is printed, and the exit status.

ghost use Rattle.std.specs.Prelude.{
  ◌≡◌,
  ◌++◌,
  codes,
  decimal,
  false,
  flat_map,
  is_err,
  length,
};
ghost use Rattle.devices.specs.Emits.{Emits};
ghost use Rattle.devices.specs.steps.Prints as printers;
ghost use Rattle.reports.specs.Lines.{report_text, unchecked_line};
ghost use Rattle.reports.specs.MergeLines.{strict_line};
ghost use Rattle.reports.specs.SchemaLines.{schema_line};
ghost use Rattle.commands.specs.Endings.{EndsAs, Prints, exit_of, on_both, output_seen};
ghost use Rattle.commands.specs.Faults.{
  fault_ending,
  refusal_line,
  refusal_text,
  refused_lines,
};
ghost use Rattle.commands.specs.Statuses.{schema_status};

use crate::ending::{BROKEN, DEVICE, MEMORY, REFUSED, TEXT, report};
use conformance::finding::Finding;
use devices::device::{Sink, WriteFault};
use devices::printer::Printer;
use express_syntax::fault::SchemaFault;
use files::fault::{FileFault, Role};
use reports::fault::Fault;
use reports::merge_lines::{print_findings_of, print_strict, print_unchecked_parts};
use reports::refusal::Refusal;
use reports::report::Report;
use reports::report_lines::print_report;
use reports::schema_fault::print_schema_fault;
use schema_constraints::finding::RuleFinding;
use schema_unchecked_declarations::list::Unchecked;

// Returns the exit status for a schema's fault.
fn status_of_schema(fault: &SchemaFault) -> u8
    ensures { result ≡ schema_status fault.now }
{
    match fault {
        SchemaFault::Text { .. } => TEXT,
        SchemaFault::Name { .. } => TEXT,
        SchemaFault::Memory => MEMORY,
    }
}

// Prints the line of a schema's fault. Returns the status for the fault, or 4 if the line can't be
// printed.
fn tell_schema<E: Sink>(fault: &SchemaFault, err: &mut E) -> u8
    ensures { Prints (output_seen E.held E.has_failed err.old err.new)
        (schema_line fault.now) (schema_status fault.now) result }
{
    match print_schema_fault(err, fault) {
        Ok(()) => status_of_schema(fault),
        Err(_) => DEVICE,
    }
}

/// Prints a report on `out`. Returns `status`, or 4 if `out` fails.
pub fn tell_report<O: Sink>(found: &Report<'_>, status: u8, out: &mut O) -> u8
    ensures { Prints (output_seen O.held O.has_failed out.old out.new)
        (report_text found.now) status result }
{
    match print_report(out, found) {
        Ok(()) => status,
        Err(_) => DEVICE,
    }
}

// Prints that `count` parts of a schema aren't checked, and returns the exit status.
fn refuse_parts<E: Sink>(count: u64, err: &mut E) -> u8
    ensures { Prints (output_seen E.held E.has_failed err.old err.new)
        (strict_line count) 1 result }
{
    match print_strict(err, count) {
        Ok(()) => BROKEN,
        Err(_) => DEVICE,
    }
}

// Prints the parts of a schema that a strict choice refuses on `out`, then their number on `err`.
// If `out` fails, prints nothing on `err` and returns 4.
fn tell_parts<O: Sink, E: Sink>(parts: &Vec<Unchecked>, out: &mut O, err: &mut E) -> u8
    ensures { EndsAs (on_both (flat_map unchecked_line parts.now.items)
        (strict_line (length parts.now.items)) 1)
        (exit_of (output_seen O.held O.has_failed out.old out.new)
        (output_seen E.held E.has_failed err.old err.new) result) }
{
    match print_unchecked_parts(out, parts) {
        Ok(()) => refuse_parts(parts.len() as u64, err),
        Err(_) => DEVICE,
    }
}

// Prints the findings of a file in this role, and returns the exit status.
fn tell_findings<E: Sink>(
    role: Role,
    findings: &[Finding],
    rules: &[RuleFinding<'_>],
    err: &mut E,
) -> u8
    ensures { Prints (output_seen E.held E.has_failed err.old err.new)
        (refused_lines role findings.now rules.now) 1 result }
{
    match print_findings_of(err, role.name().as_bytes(), findings, rules) {
        Ok(()) => BROKEN,
        Err(_) => DEVICE,
    }
}

// Prints that the certificate has a bad line.
fn print_bad_line<E: Sink>(printer: &mut Printer, err: &mut E, line: u64)
    ensures { printers.Prints E.held E.has_failed err.old err.new printer.old printer.new
        (codes "C1 BadText at line " ++ decimal line) }
{
    let mut digits = itoa::Buffer::new();
    printer.print(err, b"C1 BadText at line ");
    printer.print(err, digits.format(line).as_bytes());
}

// Prints why a certificate is refused.
fn print_refusal<E: Sink>(printer: &mut Printer, err: &mut E, refusal: Refusal)
    ensures { printers.Prints E.held E.has_failed err.old err.new printer.old printer.new
        (refusal_text refusal) }
{
    match refusal {
        Refusal::OldVersion => printer.print(err, b"C6 OldVersion"),
        Refusal::BadText { line } => print_bad_line(printer, err, line),
        Refusal::WrongNames => printer.print(err, b"C2 WrongNames"),
        Refusal::GroundlessSplit => printer.print(err, b"C3 GroundlessSplit"),
        Refusal::Unstable => printer.print(err, b"C4 Unstable"),
        Refusal::NotTheImage => printer.print(err, b"C5 NotTheImage"),
    }
}

// Prints the line that reports why a certificate is refused.
fn print_refusal_line<E: Sink>(err: &mut E, refusal: Refusal) -> Result<(), WriteFault>
    ensures emits { Emits (E.held err.old) (E.held err.new) (refusal_line refusal) result }
    ensures failed { E.has_failed err.old ≡ false → E.has_failed err.new ≡ is_err result }
{
    let mut printer = Printer::new();
    printer.print(err, b"certificate: ");
    print_refusal(&mut printer, err, refusal);
    printer.print_byte(err, b'\n');
    printer.finish(err)
}

// Reports why a certificate is refused, and returns the exit status.
fn tell_refusal<E: Sink>(refusal: Refusal, err: &mut E) -> u8
    ensures { Prints (output_seen E.held E.has_failed err.old err.new)
        (refusal_line refusal) 6 result }
{
    match print_refusal_line(err, refusal) {
        Ok(()) => REFUSED,
        Err(_) => DEVICE,
    }
}

/// Reports why a file isn't checked, merged or verified. Returns the exit status:
///
/// - 1 for findings, and for a strict choice with unchecked parts;
/// - 2 for the text of a file or schema, a name in the schema, or a chosen name that isn't an
///   entity data type of it;
/// - 4 for a device;
/// - 5 for out of memory;
/// - 6 for a certificate.
///
/// The report on a file that is merged is printed on `out`. So are the unchecked parts, followed by
/// a line on `err`. Everything else is printed on `err` alone. If printing fails, the status is 4.
pub fn tell_fault<O: Sink, E: Sink>(fault: &Fault<'_>, out: &mut O, err: &mut E) -> u8
    ensures { EndsAs (fault_ending fault.now)
        (exit_of (output_seen O.held O.has_failed out.old out.new)
        (output_seen E.held E.has_failed err.old err.new) result) }
{
    match fault {
        Fault::Schema(fault) => tell_schema(fault, err),
        Fault::Text { role, kind, place } => report(
            FileFault::Text {
                role: *role,
                kind: *kind,
                place: *place,
            },
            err,
        ),
        Fault::Unchecked(parts) => tell_parts(parts, out, err),
        Fault::Findings(found) => tell_report(found, BROKEN, out),
        Fault::Refused {
            role,
            findings,
            rules,
        } => tell_findings(*role, findings, rules, err),
        Fault::Certificate(refusal) => tell_refusal(*refusal, err),
        Fault::Device { role, written } => report(
            FileFault::Device {
                role: *role,
                written: *written,
            },
            err,
        ),
        Fault::Memory => report(FileFault::Memory, err),
    }
}
