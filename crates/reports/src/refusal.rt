//! Why a certificate is refused.

use thiserror::Error;

/// Why a certificate doesn't prove an output. It displays as its code and name.
#[derive(Clone, Copy, Debug, PartialEq, Eq, Error)]
pub enum Refusal {
    /// C6: the text is of version 1.
    #[error("C6 OldVersion")]
    OldVersion,
    /// C1: the text isn't a certificate. `line`, counted from 1, is the first line with which no
    /// certificate continues.
    #[error("C1 BadText at line {line}")]
    BadText { line: u64 },
    /// C2: the members of a table aren't the instances of the input, in order.
    #[error("C2 WrongNames")]
    WrongNames,
    /// C3: a table splits instances that no difference distinguishes at that round.
    #[error("C3 GroundlessSplit")]
    GroundlessSplit,
    /// C4: at its last round a table keeps two instances together of which one is pinned, or whose
    /// kinds differ, or whose values don't agree.
    #[error("C4 Unstable")]
    Unstable,
    /// C5: the output isn't the input with the classes of the second table merged, or its sections
    /// have other headings.
    #[error("C5 NotTheImage")]
    NotTheImage,
}
