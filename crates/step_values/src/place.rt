//! Indices of a column, in five bytes.

ghost use Rattle.std.specs.Prelude.{◌≡◌, ◌<◌, ◌≤◌, ◌^◌, MatchOption};
ghost use Rattle.step_values.specs.Cells.{inner_of};

// The number of indices that share a high part.
const PART: usize = 1 << 32;

/// Returns the high and the low part of `place`, or `None` if it is 2^40 or more.
pub(crate) fn split(place: usize) -> Option<(u8, u32)>
    ensures { MatchOption result
        (2 ^ 40 ≤ place)
        (λ parts. (place < 2 ^ 40) × (inner_of parts.0 parts.1 ≡ place)) }
{
    match u8::try_from(place / PART) {
        Ok(high) => Some((high, (place % PART) as u32)),
        Err(_) => None,
    }
}

/// Returns the index that has these two parts.
pub(crate) fn join(high: u8, low: u32) -> usize
    ensures { result ≡ inner_of high low }
{
    usize::from(high) * PART + low as usize
}
