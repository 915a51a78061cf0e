//! Why a text is no certificate.

ghost use Rattle.std.specs.Prelude.{◌≡◌};
ghost use Rattle.certificate_text.specs.declared.fault.CertFault.TheVariants.{Memory};

use std::alloc::AllocError;
use thiserror::Error;

/// Why a text is no certificate of version 2, or that memory ran out. A fault is displayed as its
/// code and its name, `BadText` also with its line, and `Memory` as `memory`.
#[derive(Clone, Copy, Debug, PartialEq, Eq, Error)]
pub enum CertFault {
    /// C6: the text is of version 1. Its first line is `STEPCERT 1`, ended by a line feed, whatever
    /// follows.
    #[error("C6 OldVersion")]
    OldVersion,
    /// C1: the text is no certificate, and its first line isn't that of version 1. `line`, counted
    /// from 1, is the first line with which no certificate continues. It is one of these:
    ///
    /// - a line that can't follow the lines before it,
    /// - the last line, if no line feed ends it,
    /// - the line after the last, if lines are missing.
    #[error("C1 BadText at line {line}")]
    BadText { line: u64 },
    /// Memory ran out. This can happen with any text.
    #[error("memory")]
    Memory,
}

impl From<AllocError> for CertFault {
    ghost from_gives = { λ _ e. e ≡ Memory };

    fn from(_: AllocError) -> CertFault {
        CertFault::Memory
    }
}
