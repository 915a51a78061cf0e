//! The first places of classes, and the rounds at which places become the first of a class.

ghost use Rattle.std.specs.Prelude.{◌≡◌, ◌<◌, ◌≤◌, ℕ, IfOk, length, slice_index};
ghost use Rattle.partitions.specs.Layouts.{IsLaid, count, size};
ghost use Rattle.partitions.specs.Views.{layout};
ghost use Rattle.partition_refinement.specs.Firsts.{AreParted};
ghost use Rattle.partition_refinement.specs.steps.Working.{AreFirstPlaces, AreBorn, IsAbove};

use partitions::parts::Parts;
use std::alloc::{AllocError, Global};

/// Returns the first place of each class.
pub(crate) fn first_places(alloc: Global, parts: &Parts) -> Result<Vec<u32>, AllocError>
    requires { IsLaid (layout parts.now) }
    ensures length { IfOk result (λ v. length v.items ≡ count (layout parts.now)) }
    ensures first_places { IfOk result (λ v.
        AreFirstPlaces (layout parts.now) (count (layout parts.now)) v.items) }
{
    let mut first_places = filled(alloc, parts.count(), 0)?;
    let mut place = parts.len();
    while place > 0 {
        place -= 1;
        first_places[parts.class(place) as usize] = place;
    }
    Ok(first_places)
}

/// Returns `size` copies of `number`.
pub(crate) fn filled(alloc: Global, size: usize, number: u32) -> Result<Vec<u32>, AllocError>
    ensures length { IfOk result (λ v. length v.items ≡ size) }
    ensures each { IfOk result (λ v. (k : ℕ) → k < size → slice_index v.items k ≡ number) }
{
    let mut all = Vec::with_capacity(alloc, size)?;
    for _i in 0..size {
        all.push(number)?;
    }
    Ok(all)
}

/// Joins each class from `high` - 1 down to `low` to the class that it was split off. Returns for
/// each, in this order, the place that became the first of a class when the class was split off.
pub(crate) fn born(
    alloc: Global,
    parts: &Parts,
    first_places: &mut Vec<u32>,
    low: u32,
    high: u32,
) -> Result<Vec<u32>, AllocError>
    requires laid { IsLaid (layout parts.now) }
    requires length { length first_places.old.items ≡ count (layout parts.now) }
    requires order { low ≤ high }
    requires known { high ≤ count (layout parts.now) }
    requires parted { AreParted (layout parts.now) low }
    requires first_places { AreFirstPlaces (layout parts.now) high first_places.old.items }
    ensures length { length first_places.new.items ≡ length first_places.old.items }
    ensures first_places { IfOk result (λ _.
        AreFirstPlaces (layout parts.now) low first_places.new.items) }
    ensures born { IfOk result (λ v. AreBorn (layout parts.now) low high v.items) }
{
    let mut born = Vec::new(alloc);
    let mut class = high;
    while class > low {
        class -= 1;
        let parent = parts.parent(class);
        let one = first_places[parent as usize];
        let two = first_places[class as usize];
        born.push(one.max(two))?;
        first_places[parent as usize] = one.min(two);
    }
    Ok(born)
}

/// Returns the class that `class` was part of when there were `base` classes.
pub(crate) fn climb(parts: &Parts, class: u32, base: u32) -> u32
    requires laid { IsLaid (layout parts.now) }
    requires known { class < count (layout parts.now) }
    requires parted { AreParted (layout parts.now) base }
    ensures { IsAbove (layout parts.now) base class result }
{
    let mut at = class;
    while at >= base {
        at = parts.parent(at);
    }
    at
}
