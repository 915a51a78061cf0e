//! Runs: pairs of one key, or places of one number, that are adjacent.

ghost use Rattle.std.specs.Prelude.{◌≡◌, ◌<◌, ◌≤◌, ◌↔◌, ℕ, true, length, slice_index};
ghost use Rattle.partitions.specs.steps.Steps.{key_of, key_at, number_at};

use crate::pairs::Pair;

/// Whether two pairs have the same key.
fn have_one_key(a: Pair, b: Pair) -> bool
    ensures { (result ≡ true) ↔ (key_of a ≡ key_of b) }
{
    a.class == b.class && a.position == b.position
}

/// Returns the index at which the pairs with the key of the pair at `at` end.
pub(crate) fn run_end(pairs: &[Pair], at: usize) -> usize
    requires { at < length pairs.now }
    ensures later { at < result }
    ensures within { result ≤ length pairs.now }
    ensures same { (k : ℕ) → k < result → at ≤ k → key_at pairs.now k ≡ key_at pairs.now at }
    ensures end { result < length pairs.now → key_at pairs.now result ≡ key_at pairs.now at → ⊥ }
{
    let mut end = at + 1;
    while end < pairs.len() && have_one_key(pairs[end], pairs[at]) {
        end += 1;
    }
    end
}

/// Returns the index at which the places with the number of the place at `at` end.
pub(crate) fn number_end(numbers: &[u32], order: &[u32], at: usize) -> usize
    requires inside { at < length order.now }
    requires places { (k : ℕ) → k < length order.now
        → slice_index order.now k < length numbers.now }
    ensures later { at < result }
    ensures within { result ≤ length order.now }
    ensures same { (k : ℕ) → k < result → at ≤ k
        → number_at numbers.now order.now k ≡ number_at numbers.now order.now at }
    ensures end { result < length order.now
        → number_at numbers.now order.now result ≡ number_at numbers.now order.now at → ⊥ }
{
    let number = numbers[order[at] as usize];
    let mut end = at + 1;
    while end < order.len() && numbers[order[end] as usize] == number {
        end += 1;
    }
    end
}
