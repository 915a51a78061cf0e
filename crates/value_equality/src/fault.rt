//! Why rows aren't a population.

ghost use Rattle.std.specs.Prelude.{◌≡◌};
ghost use Rattle.value_equality.specs.declared.fault.PlainFault.TheVariants.{Memory};

use std::alloc::{AllocError, AllocFailed};
use thiserror::Error;

/// Why rows aren't a population.
#[derive(Clone, Copy, Debug, PartialEq, Eq, Error)]
pub enum PlainFault {
    /// There are more than 2^32 - 1 rows.
    #[error("TooManyRows")]
    TooManyRows,
    /// A name occurs twice.
    #[error("DuplicateRow")]
    DuplicateRow,
    /// A reference names no row.
    #[error("UnknownReference")]
    UnknownReference,
    /// Memory ran out.
    #[error("memory")]
    Memory,
}

impl From<AllocError> for PlainFault {
    ghost from_gives = { λ _ e. e ≡ Memory };

    fn from(_: AllocError) -> PlainFault {
        PlainFault::Memory
    }
}

impl<T: Drop> From<AllocFailed<T>> for PlainFault {
    ghost from_gives = { λ _ e. e ≡ Memory };

    fn from(_: AllocFailed<T>) -> PlainFault {
        PlainFault::Memory
    }
}
