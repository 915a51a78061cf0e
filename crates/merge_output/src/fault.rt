//! Why a smaller file isn't written, or only in part.

use thiserror::Error;

/// Why a smaller file isn't written, or only in part.
#[derive(Clone, Copy, Debug, PartialEq, Eq, Error)]
pub enum RewriteFault {
    /// The device failed after this number of bytes of the text, capped at 2^64 - 1.
    #[error("the device failed after {written} bytes")]
    Device { written: u64 },
    /// Memory ran out, and nothing was written.
    #[error("memory ran out")]
    Memory,
}
