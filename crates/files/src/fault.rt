//! Why a file isn't read or written, and the line that reports it.

ghost use Rattle.std.specs.Prelude.{◌≡◌, false, decimal, is_err};
ghost use Rattle.devices.specs.Emits.{Emits};
ghost use Rattle.devices.specs.steps.Prints.{Prints};
ghost use Rattle.files.specs.Faults.{read_fault, text_fault, write_fault};
ghost use Rattle.files.specs.Lines.{count_text, fault_text, is_counted, line_of, role_text};
ghost use Rattle.files.specs.declared.fault.FileFault.TheVariants.{Device, Text};

use crate::read::ReadFault;
use devices::device::{Sink, WriteFault};
use devices::printer::Printer;
use step_structures::fault::{FaultKind, LeftOut, TextFault};

/// The largest size of a file that is read, in bytes (2^40).
pub const LIMIT: u64 = 1 << 40;

/// The role of a file in a command.
#[derive(Clone, Copy, Debug, PartialEq, Eq)]
pub enum Role {
    /// The schema, which is read.
    Schema,
    /// The STEP file that is read.
    File,
    /// The STEP file that is written, the output that is verified, or the standard output.
    Output,
    /// The certificate, written or read.
    Certificate,
}

impl Role {
    /// Returns the name of the role in messages.
    pub fn name(self) -> &'static str
        ensures { result.now ≡ role_text self }
    {
        match self {
            Role::Schema => "schema",
            Role::File => "file",
            Role::Output => "output",
            Role::Certificate => "certificate",
        }
    }

    // Whether the line of a device fault states how many bytes were written.
    fn is_counted(self) -> bool
        ensures { result ≡ is_counted self }
    {
        match self {
            Role::Schema => false,
            Role::File => false,
            Role::Output => true,
            Role::Certificate => true,
        }
    }
}

/// Why a file isn't read or written.
#[derive(Clone, Copy, Debug, PartialEq, Eq)]
pub enum FileFault {
    /// The text of the file of `role` isn't accepted: `kind` is the fault that shows first, and
    /// `place` its byte offset.
    Text {
        role: Role,
        kind: FaultKind,
        place: u64,
    },
    /// The file of `role` can't be opened, created, read or written. `written` is the number of
    /// bytes of the text that were written to it, at most 2^64 - 1; 0 for a file that is read.
    Device {
        role: Role,
        written: u64,
    },
    /// Memory ran out.
    Memory,
}

impl FileFault {
    /// Returns the fault of a source in `role` that wasn't read to its end because of `fault`.
    pub fn of_read(role: Role, fault: ReadFault) -> FileFault
        ensures { result ≡ read_fault role fault }
    {
        match fault {
            ReadFault::Device => FileFault::Device { role, written: 0 },
            ReadFault::TooLarge => FileFault::Text {
                role,
                kind: FaultKind::LeftOut(LeftOut::TooLarge),
                place: LIMIT,
            },
            ReadFault::Memory => FileFault::Memory,
        }
    }

    /// Returns the fault of a file in `role` whose text isn't accepted because of `fault`.
    pub fn of_text(role: Role, fault: TextFault) -> FileFault
        ensures { result ≡ text_fault role fault }
    {
        match fault {
            TextFault::Memory => FileFault::Memory,
            TextFault::Fault { kind, place } => FileFault::Text { role, kind, place },
        }
    }

    /// Returns the fault of a file in `role` that isn't written because of `fault`.
    pub fn of_write(role: Role, fault: WriteFault) -> FileFault
        ensures { result ≡ write_fault role fault }
    {
        FileFault::Device {
            role,
            written: fault.written,
        }
    }
}

// Prints a number in decimal.
fn print_number<S: Sink>(printer: &mut Printer, out: &mut S, number: u64)
    ensures { Prints S.held S.has_failed out.old out.new printer.old printer.new (decimal number) }
{
    let mut digits = itoa::Buffer::new();
    printer.print(out, digits.format(number).as_bytes());
}

// Prints the line of a text fault, without its end.
fn print_text_fault<S: Sink>(
    printer: &mut Printer,
    out: &mut S,
    role: Role,
    kind: FaultKind,
    place: u64,
)
    ensures { Prints S.held S.has_failed out.old out.new printer.old printer.new
        (fault_text (Text role kind place)) }
{
    printer.print(out, role.name().as_bytes());
    printer.print(out, b": ");
    printer.print(out, kind.name().as_bytes());
    printer.print(out, b" at byte ");
    print_number(printer, out, place);
}

// Prints how many bytes were written, if the line of this role states it.
fn print_count<S: Sink>(printer: &mut Printer, out: &mut S, role: Role, written: u64)
    ensures { Prints S.held S.has_failed out.old out.new printer.old printer.new
        (count_text role written) }
{
    if role.is_counted() {
        printer.print(out, b" after ");
        print_number(printer, out, written);
        printer.print(out, b" bytes");
    }
}

// Prints the line of a device fault, without its end.
fn print_device_fault<S: Sink>(printer: &mut Printer, out: &mut S, role: Role, written: u64)
    ensures { Prints S.held S.has_failed out.old out.new printer.old printer.new
        (fault_text (Device role written)) }
{
    printer.print(out, b"device: ");
    printer.print(out, role.name().as_bytes());
    print_count(printer, out, role, written);
}

// Prints the line of a fault, without its end.
fn print_fault<S: Sink>(printer: &mut Printer, out: &mut S, fault: FileFault)
    ensures { Prints S.held S.has_failed out.old out.new printer.old printer.new
        (fault_text fault) }
{
    match fault {
        FileFault::Text { role, kind, place } => print_text_fault(printer, out, role, kind, place),
        FileFault::Device { role, written } => print_device_fault(printer, out, role, written),
        FileFault::Memory => printer.print(out, b"memory"),
    }
}

/// Prints the line that reports `fault`.
///
/// # Errors
/// - `WriteFault` if the sink fails; a prefix of the line was written.
pub fn print_line<S: Sink>(out: &mut S, fault: FileFault) -> Result<(), WriteFault>
    ensures emits { Emits (S.held out.old) (S.held out.new) (line_of fault) result }
    ensures failed { S.has_failed out.old ≡ false → S.has_failed out.new ≡ is_err result }
{
    let mut printer = Printer::new();
    print_fault(&mut printer, out, fault);
    printer.print_byte(out, b'\n');
    printer.finish(out)
}
