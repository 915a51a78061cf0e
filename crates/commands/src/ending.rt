//! How a run ends: what is printed, and the exit status.

ghost use Rattle.std.specs.Prelude.{◌≡◌, false, OnOk, is_err, MatchResult};
ghost use Rattle.std.specs.Io.KnownBytes.{Appends};
ghost use Rattle.files.specs.Lines.{line_of};
ghost use Rattle.commands.specs.Endings.{AppendsFront, Ends, Prints, output_seen};
ghost use Rattle.commands.specs.Statuses.{fault_status};

use devices::device::{Failed, Sink};
use files::fault::{FileFault, print_line};

/// The exit status if everything is done.
pub const DONE: u8 = 0;

/// The exit status if a file breaks its schema, or a strict choice refuses a schema.
pub const BROKEN: u8 = 1;

/// The exit status if the text of a file or schema can't be read, or a name in the schema or a
/// chosen name is at fault.
pub const TEXT: u8 = 2;

/// The exit status if the arguments of the command line are wrong.
pub const USAGE: u8 = 3;

/// The exit status if a device fails.
pub const DEVICE: u8 = 4;

/// The exit status if memory runs out.
pub const MEMORY: u8 = 5;

/// The exit status if a certificate is refused.
pub const REFUSED: u8 = 6;

/// Returns the exit status for the fault of a file.
pub fn status_of(fault: &FileFault) -> u8
    ensures { result ≡ fault_status fault.now }
{
    match fault {
        FileFault::Text { .. } => TEXT,
        FileFault::Device { .. } => DEVICE,
        FileFault::Memory => MEMORY,
    }
}

// Writes all of `text`.
fn send<S: Sink>(out: &mut S, text: &str) -> Result<(), Failed>
    ensures sent { MatchResult result
        (λ _. Appends (S.held out.old) (S.held out.new) text.now)
        (λ _. AppendsFront (S.held out.old) (S.held out.new) text.now) }
    ensures failed { S.has_failed out.old ≡ false → S.has_failed out.new ≡ is_err result }
{
    let mut rest = text.as_bytes();
    while !rest.is_empty() {
        let count = out.put(rest)?;
        let (_, further) = rest.split_at(count);
        rest = further;
    }
    Ok(())
}

/// Prints `text` on `out`. Returns `status`, or 4 if the text can't be printed.
pub fn print<S: Sink>(out: &mut S, text: &str, status: u8) -> u8
    ensures { Prints (output_seen S.held S.has_failed out.old out.new)
        text.now status result }
{
    match send(out, text) {
        Ok(()) => status,
        Err(_) => DEVICE,
    }
}

/// Prints the line of a file's fault on `err`. Returns the status for the fault, or 4 if the line
/// can't be printed.
pub fn report<E: Sink>(fault: FileFault, err: &mut E) -> u8
    ensures { Prints (output_seen E.held E.has_failed err.old err.new)
        (line_of fault) (fault_status fault) result }
{
    match print_line(err, fault) {
        Ok(()) => status_of(&fault),
        Err(_) => DEVICE,
    }
}

/// Returns 0 for `Ok`. For a fault, prints its line on `err` and returns its status, or 4 if the
/// line can't be printed.
pub fn finish<E: Sink>(outcome: Result<(), FileFault>, err: &mut E) -> u8
    ensures ends { Ends outcome
        (output_seen E.held E.has_failed err.old err.new) result }
    ensures silent { OnOk outcome (err.new ≡ err.old) }
{
    match outcome {
        Ok(()) => DONE,
        Err(fault) => report(fault, err),
    }
}
