//! Round 0 of a refinement: the partition of places by their kinds.

ghost use Rattle.std.specs.Prelude.{◌<◌, IfOk, length};
ghost use Rattle.partitions.specs.Views.{layout};
ghost use Rattle.partition_edges.specs.steps.Starts.{IsStarted};

use partitions::parts::Parts;
use std::alloc::{AllocError, Global};

/// Returns round 0: the partition of `kinds.len()` places in which two places share a class exactly
/// if their kinds are equal.
///
/// It takes time by the number of places if the kinds are below it, otherwise by that number times
/// its logarithm.
pub fn start(alloc: Global, kinds: &[u32]) -> Result<Parts, AllocError>
    requires { length kinds.now < 4294967296 }
    ensures { IfOk result (λ p. IsStarted kinds.now (layout p)) }
{
    Parts::by_numbers(alloc, kinds)
}
