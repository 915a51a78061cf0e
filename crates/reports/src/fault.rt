//! Why a file isn't checked, merged or verified.

ghost use Rattle.std.specs.Prelude.{◌≡◌, ◌^◌};
ghost use Rattle.step_structures.specs.declared.fault.FaultKind.TheVariants as kinds;
ghost use Rattle.step_structures.specs.declared.fault.LeftOut.TheVariants as left_out;
ghost use Rattle.reports.specs.Faults.{of_file, of_schema, too_large, unread};
ghost use Rattle.reports.specs.declared.fault.Fault.TheVariants.{Memory, Text};

use crate::refusal::Refusal;
use crate::report::Report;
use conformance::finding::Finding;
use express_syntax::fault::{FaultKind as SchemaKind, LeftOut as SchemaLeftOut, SchemaFault};
use files::fault::{FileFault, LIMIT, Role};
use files::read::ReadFault;
use schema_constraints::finding::RuleFinding;
use schema_unchecked_declarations::list::Unchecked;
use std::alloc::AllocError;
use step_structures::fault::{FaultKind, LeftOut};

/// Why a file isn't checked, merged or verified. Each function lists which of these it returns, and
/// when.
#[derive(Drop)]
pub enum Fault<'s> {
    /// The text of the schema isn't accepted, a name in it is at fault, or a chosen name isn't an
    /// entity data type of it. This is never `SchemaFault::Memory`.
    Schema(SchemaFault),
    /// The text of the file of `role` isn't accepted: `kind` is the fault that shows first, and
    /// `place` its byte offset.
    Text {
        role: Role,
        kind: FaultKind,
        place: u64,
    },
    /// The choice is strict, and these parts of the schema aren't checked, in the order of its
    /// text; there is at least one.
    Unchecked(Vec<Unchecked>),
    /// The file that is to be merged breaks its schema.
    Findings(Report<'s>),
    /// A file that is verified has findings: all of them.
    Refused {
        /// Which file: the one that is read, or the output.
        role: Role,
        /// The faults of its instances one by one, in order.
        findings: Vec<Finding>,
        /// The rules that its instances break, in order. Only the file that is read is tested for
        /// them, if `findings` is empty.
        rules: Vec<RuleFinding<'s>>,
    },
    /// The certificate doesn't prove the output.
    Certificate(Refusal),
    /// A device failed. `written` is the number of bytes of the text that were written to it, at
    /// most 2^64 - 1; 0 for a source.
    Device {
        role: Role,
        written: u64,
    },
    /// Memory ran out.
    Memory,
}

impl<'s> From<AllocError> for Fault<'s> {
    ghost from_gives = { λ _ e. e ≡ Memory };

    fn from(_: AllocError) -> Fault<'s> {
        Fault::Memory
    }
}

/// Returns the fault of a schema that isn't accepted or resolved, or that lacks a chosen name.
pub fn of_schema<'s>(fault: SchemaFault) -> Fault<'s>
    ensures { result ≡ of_schema fault }
{
    match fault {
        SchemaFault::Memory => Fault::Memory,
        other => Fault::Schema(other),
    }
}

/// Returns the fault of a file that isn't read or written.
pub fn of_file<'s>(fault: FileFault) -> Fault<'s>
    ensures { result ≡ of_file fault }
{
    match fault {
        FileFault::Text { role, kind, place } => Fault::Text { role, kind, place },
        FileFault::Device { role, written } => Fault::Device { role, written },
        FileFault::Memory => Fault::Memory,
    }
}

// Returns the fault of a STEP file or certificate that is larger than `LIMIT` bytes.
fn large_text<'s>(role: Role) -> Fault<'s>
    ensures { result ≡ Text role (kinds.LeftOut left_out.TooLarge) (2 ^ 40) }
{
    Fault::Text {
        role,
        kind: FaultKind::LeftOut(LeftOut::TooLarge),
        place: LIMIT,
    }
}

/// Returns the fault of a file in `role` that is larger than `LIMIT` bytes.
pub fn too_large<'s>(role: Role) -> Fault<'s>
    ensures { result ≡ too_large role }
{
    match role {
        Role::Schema => Fault::Schema(SchemaFault::Text {
            kind: SchemaKind::LeftOut(SchemaLeftOut::TooLarge),
            place: LIMIT,
        }),
        Role::File => large_text(role),
        Role::Output => large_text(role),
        Role::Certificate => large_text(role),
    }
}

/// Returns the fault of a source in `role` that wasn't read to its end because of `fault`.
pub fn unread<'s>(role: Role, fault: ReadFault) -> Fault<'s>
    ensures { result ≡ unread role fault }
{
    match fault {
        ReadFault::Device => Fault::Device { role, written: 0 },
        ReadFault::TooLarge => too_large(role),
        ReadFault::Memory => Fault::Memory,
    }
}
