//! Adding findings to a list.

ghost use Rattle.std.specs.Prelude.{◌≡◌, ◌++◌, OnOk};
ghost use Rattle.conformance.specs.Findings.{whole_findings, at_place};

use conformance::finding::{Finding, FindingKind, Spot};
use std::alloc::AllocError;

/// Adds `times` findings of this kind that are about a whole instance.
pub fn tell_whole(
    found: &mut Vec<Finding>,
    instance: u64,
    kind: FindingKind,
    times: usize,
) -> Result<(), AllocError>
    ensures { OnOk result (found.new.items ≡ found.old.items
        ++ whole_findings instance kind times) }
{
    for _ in 0..times {
        found.push(Finding {
            kind,
            instance,
            spot: Spot::Place(0),
        })?;
    }
    Ok(())
}

/// Adds the finding of the parameter numbered `place`, if it has one.
pub fn tell_at(
    found: &mut Vec<Finding>,
    instance: u64,
    place: u64,
    kind: Option<FindingKind>,
) -> Result<(), AllocError>
    ensures { OnOk result (found.new.items ≡ found.old.items ++ at_place instance place kind) }
{
    if let Some(kind) = kind {
        found.push(Finding {
            kind,
            instance,
            spot: Spot::Place(place),
        })?;
    }
    Ok(())
}
