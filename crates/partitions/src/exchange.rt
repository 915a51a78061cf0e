//! A list of numbers and its inverse.

ghost use Rattle.std.specs.Prelude.{◌≡◌, ◌<◌, ◌≤◌, ℕ, length, slice_index};
ghost use Rattle.partitions.specs.Inverse.{AreInverse};
ghost use Rattle.partitions.specs.steps.Steps.{IsExchanged};

/// Exchanges the elements at indices `i` and `j` of `order`, and keeps `index` its inverse.
pub(crate) fn exchange(order: &mut [u32], index: &mut [u32], i: u32, j: u32)
    requires inverse { AreInverse order.old index.old }
    requires i_in { i < length index.old }
    requires j_in { j < length index.old }
    ensures inverse { AreInverse order.new index.new }
    ensures moved { IsExchanged index.old index.new i j }
{
    let x = order[i as usize];
    let y = order[j as usize];
    order[i as usize] = y;
    order[j as usize] = x;
    index[x as usize] = j;
    index[y as usize] = i;
}

/// Writes a number at each place that is in `order` from index `from` up to, but not including,
/// `to`.
pub(crate) fn write_at(class: &mut [u32], order: &[u32], from: u32, to: u32, number: u32)
    requires within { (q : ℕ) → q < to → slice_index order.now q < length class.old }
    requires ordered { from ≤ to }
    requires to_in { to ≤ length order.now }
    ensures length { length class.new ≡ length class.old }
    ensures there { (q : ℕ) → q < to → from ≤ q → slice_index class.new (slice_index order.now q)
        ≡ number }
    ensures elsewhere { (x : ℕ) → ((q : ℕ) → q < to → from ≤ q → slice_index order.now q ≡ x → ⊥)
        → slice_index class.new x ≡ slice_index class.old x }
{
    for q in from..to {
        class[order[q as usize] as usize] = number;
    }
}
