//! Why a text is not read.

ghost use Rattle.std.specs.Prelude.{◌≡◌, Some};
ghost use Rattle.step_structures.specs.FaultTexts.{flaw_text, kind_text, left_out_text};
ghost use Rattle.step_structures.specs.declared.fault.TextFault.TheVariants.{Memory};

use std::alloc::{AllocError, AllocFailed};
use std::{error, fmt};
use step_literals::fault::Flaw;
use thiserror::Error;

/// Parts of the standard that aren't supported, and limits.
#[derive(Clone, Copy, Debug, PartialEq, Eq)]
pub enum LeftOut {
    /// A user-defined keyword, `!NAME`.
    UserDefined,
    /// `&SCOPE`
    Scope,
    /// An ANCHOR section.
    Anchor,
    /// A REFERENCE section.
    Reference,
    /// A SIGNATURE section.
    Signature,
    /// More than 2^32 - 1 instances, or more than 2^32 - 1 data sections.
    TooMany,
    /// More than 2^40 bytes.
    TooLarge,
}

/// The kinds of faults of a text.
#[derive(Clone, Copy, Debug, PartialEq, Eq)]
pub enum FaultKind {
    /// There is no token within the limits here (E1 to E5).
    Token(Flaw),
    /// A token that can't be here; another one was expected.
    Expected,
    /// An instance name that occurs already, or a keyword that occurs twice in an external record.
    DuplicateName,
    /// A part of the standard that isn't supported, or a limit that is exceeded.
    LeftOut(LeftOut),
    /// More than 64 parentheses open at once.
    TooDeep,
    /// One of the first three records of the header is missing or has another keyword, or
    /// FILE_SCHEMA doesn't name exactly one schema.
    HeaderFault,
}

// Returns the code and the name of a flaw.
fn flaw_name(flaw: Flaw) -> &'static str
    ensures { result.now ≡ flaw_text flaw }
{
    match flaw {
        Flaw::BadToken => "E1 BadToken",
        Flaw::UnendedString => "E2 UnendedString",
        Flaw::BadEscape => "E3 BadEscape",
        Flaw::NumberTooLong => "E4 NumberTooLong",
        Flaw::NameTooLarge => "E5 NameTooLarge",
    }
}

// Returns the code and the names of what is left out.
fn left_out_name(part: LeftOut) -> &'static str
    ensures { result.now ≡ left_out_text part }
{
    match part {
        LeftOut::UserDefined => "E8 LeftOut UserDefined",
        LeftOut::Scope => "E8 LeftOut Scope",
        LeftOut::Anchor => "E8 LeftOut Anchor",
        LeftOut::Reference => "E8 LeftOut Reference",
        LeftOut::Signature => "E8 LeftOut Signature",
        LeftOut::TooMany => "E8 LeftOut TooMany",
        LeftOut::TooLarge => "E8 LeftOut TooLarge",
    }
}

impl FaultKind {
    /// Returns the code and the name of the fault, such as `E6 Expected`.
    pub fn name(self) -> &'static str
        ensures { result.now ≡ kind_text self }
    {
        match self {
            FaultKind::Token(flaw) => flaw_name(flaw),
            FaultKind::Expected => "E6 Expected",
            FaultKind::DuplicateName => "E7 DuplicateName",
            FaultKind::LeftOut(part) => left_out_name(part),
            FaultKind::TooDeep => "E9 TooDeep",
            FaultKind::HeaderFault => "E10 HeaderFault",
        }
    }
}

impl fmt::Display for FaultKind {
    ghost output = { λ kind. Some (kind_text kind) };

    fn fmt<W: fmt::Write>(&self, f: &mut fmt::Formatter<W>) -> fmt::Result {
        f.write_str(self.name())
    }
}

impl error::Error for FaultKind {}

/// Why a text is not read: its first fault with the number of bytes before it, or out of memory.
#[derive(Clone, Copy, Debug, PartialEq, Eq, Error)]
pub enum TextFault {
    /// Memory ran out.
    #[error("memory")]
    Memory,
    /// The first fault of the text.
    #[error("{kind} at byte {place}")]
    Fault { kind: FaultKind, place: u64 },
}

impl From<AllocError> for TextFault {
    ghost from_gives = { λ _ e. e ≡ Memory };

    fn from(_: AllocError) -> TextFault {
        TextFault::Memory
    }
}

impl<T: Drop> From<AllocFailed<T>> for TextFault {
    ghost from_gives = { λ _ e. e ≡ Memory };

    fn from(_: AllocFailed<T>) -> TextFault {
        TextFault::Memory
    }
}
