//! Counting and collecting the elements for which the condition of a query is TRUE.

ghost use Rattle.std.specs.Prelude.{◌≡◌, ◌<◌, ◌^◌, ◌++◌, ◌∷◌, [], suc, OnOk, if◌then◌else◌};

use std::alloc::AllocError;

/// Returns `count`, plus one if `holds`.
pub(crate) fn counted_if(count: usize, holds: bool) -> usize
    requires { suc count < 2 ^ 64 }
    ensures { result ≡ (if holds then suc count else count) }
{
    if holds { count + 1 } else { count }
}

/// Adds `index` to `kept` if `holds`.
pub(crate) fn keep_if(kept: &mut Vec<usize>, holds: bool, index: usize) -> Result<(), AllocError>
    ensures { OnOk result (kept.new.items
        ≡ (if holds then kept.old.items ++ index ∷ [] else kept.old.items)) }
{
    if holds {
        kept.push(index)?;
    }
    Ok(())
}
