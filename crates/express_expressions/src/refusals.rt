//! Why no expression is read.

ghost use Rattle.std.specs.Prelude.{◌≡◌};
ghost use Rattle.express_expressions.specs.declared.refusals.NotRead.TheVariants.{Memory};

use std::alloc::{AllocError, AllocFailed};

/// Why no expression is read.
#[derive(Clone, Copy)]
pub(crate) enum NotRead {
    /// The lexemes aren't those of an expression.
    NoExpression,
    /// Memory ran out.
    Memory,
}

impl From<AllocError> for NotRead {
    ghost from_gives = { λ _ e. e ≡ Memory };

    fn from(_: AllocError) -> NotRead {
        NotRead::Memory
    }
}

impl<T: Drop> From<AllocFailed<T>> for NotRead {
    ghost from_gives = { λ _ e. e ≡ Memory };

    fn from(_: AllocFailed<T>) -> NotRead {
        NotRead::Memory
    }
}
