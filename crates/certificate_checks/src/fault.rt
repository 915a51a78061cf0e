//! Why a table isn't valid for a population.

ghost use Rattle.std.specs.Prelude.{◌≡◌};
ghost use Rattle.certificate_checks.specs.declared.fault.TableFault.TheVariants.{Memory};

use std::alloc::AllocError;
use thiserror::Error;

/// Why a table isn't valid for a population. The first of these faults is reported.
#[derive(Clone, Copy, Debug, PartialEq, Eq, Error)]
pub enum TableFault {
    /// The members aren't the names of the instances, in order.
    #[error("Members")]
    Members,
    /// Instances that are alike are in different classes at round 0. Or instances that share a
    /// class at a round, and agree under it, are in different classes at the next.
    #[error("Ground")]
    Ground,
    /// At the last round instances share a class that aren't alike, or don't agree under it.
    #[error("Stable")]
    Stable,
    /// Memory ran out.
    #[error("memory")]
    Memory,
}

impl From<AllocError> for TableFault {
    ghost from_gives = { λ _ e. e ≡ Memory };

    fn from(_: AllocError) -> TableFault {
        TableFault::Memory
    }
}
