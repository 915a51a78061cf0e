//! The line of a schema's fault.

ghost use Rattle.std.specs.Prelude.{◌≡◌, ◌++◌, false, codes, decimal, is_err};
ghost use Rattle.std.specs.String.{string_bytes};
ghost use Rattle.devices.specs.Emits.{Emits};
ghost use Rattle.devices.specs.steps.Prints.{Prints};
ghost use Rattle.reports.specs.SchemaLines.{
  fault_kind_text,
  left_out_schema_text,
  name_fault_text,
  schema_fault_text,
  schema_line,
};

use devices::device::{Sink, WriteFault};
use devices::printer::Printer;
use express_syntax::fault::{FaultKind, LeftOut, NameFault, SchemaFault};

/// Returns the number and the name of an EXPRESS feature that isn't supported.
pub fn left_out_name(part: LeftOut) -> &'static str
    ensures { result.now ≡ left_out_schema_text part }
{
    match part {
        LeftOut::Use => "S8 LeftOut Use",
        LeftOut::Reference => "S8 LeftOut Reference",
        LeftOut::Renamed => "S8 LeftOut Renamed",
        LeftOut::Extensible => "S8 LeftOut Extensible",
        LeftOut::BasedOn => "S8 LeftOut BasedOn",
        LeftOut::GenericEntity => "S8 LeftOut GenericEntity",
        LeftOut::SecondSchema => "S8 LeftOut SecondSchema",
        LeftOut::TooLarge => "S8 LeftOut TooLarge",
    }
}

/// Returns the number and the name of a fault in the text of a schema.
pub fn fault_kind_name(kind: FaultKind) -> &'static str
    ensures { result.now ≡ fault_kind_text kind }
{
    match kind {
        FaultKind::BadToken => "S1 BadToken",
        FaultKind::Expected => "S2 Expected",
        FaultKind::LeftOut(part) => left_out_name(part),
        FaultKind::TooDeep => "S9 TooDeep",
    }
}

/// Returns the number and the name of a fault of a name in a schema.
pub fn name_fault_name(kind: NameFault) -> &'static str
    ensures { result.now ≡ name_fault_text kind }
{
    match kind {
        NameFault::UnknownName => "S3 UnknownName",
        NameFault::DuplicateName => "S4 DuplicateName",
        NameFault::SupertypeCycle => "S5 SupertypeCycle",
        NameFault::TypeCycle => "S6 TypeCycle",
    }
}

// Prints the byte offset of a fault.
fn print_place<S: Sink>(printer: &mut Printer, out: &mut S, place: u64)
    ensures { Prints S.held S.has_failed out.old out.new printer.old printer.new
        (codes " at byte " ++ decimal place) }
{
    let mut digits = itoa::Buffer::new();
    printer.print(out, b" at byte ");
    printer.print(out, digits.format(place).as_bytes());
}

// Prints the line of a text fault, without its end.
fn print_text_fault<S: Sink>(printer: &mut Printer, out: &mut S, kind: FaultKind, place: u64)
    ensures { Prints S.held S.has_failed out.old out.new printer.old printer.new
        (codes "schema: " ++ fault_kind_text kind ++ (codes " at byte " ++ decimal place)) }
{
    printer.print(out, b"schema: ");
    printer.print(out, fault_kind_name(kind).as_bytes());
    print_place(printer, out, place);
}

// Prints the line of a name fault, without its end.
fn print_name_fault<S: Sink>(printer: &mut Printer, out: &mut S, kind: NameFault, name: &str)
    ensures { Prints S.held S.has_failed out.old out.new printer.old printer.new
        (codes "schema: " ++ name_fault_text kind ++ codes " " ++ name.now) }
{
    printer.print(out, b"schema: ");
    printer.print(out, name_fault_name(kind).as_bytes());
    printer.print(out, b" ");
    printer.print(out, name.as_bytes());
}

// Prints the line of a schema fault, without its end.
fn print_fault<S: Sink>(printer: &mut Printer, out: &mut S, fault: &SchemaFault)
    ensures { Prints S.held S.has_failed out.old out.new printer.old printer.new
        (schema_fault_text fault.now) }
{
    match fault {
        SchemaFault::Text { kind, place } => print_text_fault(printer, out, *kind, *place),
        SchemaFault::Name { kind, name } => print_name_fault(printer, out, *kind, name),
        SchemaFault::Memory => printer.print(out, b"memory"),
    }
}

/// Prints the line that reports the schema fault `fault`.
///
/// # Errors
/// - `WriteFault` if the sink fails; a prefix of the line was written.
pub fn print_schema_fault<S: Sink>(out: &mut S, fault: &SchemaFault) -> Result<(), WriteFault>
    ensures emits { Emits (S.held out.old) (S.held out.new) (schema_line fault.now) result }
    ensures failed { S.has_failed out.old ≡ false → S.has_failed out.new ≡ is_err result }
{
    let mut printer = Printer::new();
    print_fault(&mut printer, out, fault);
    printer.print_byte(out, b'\n');
    printer.finish(out)
}
