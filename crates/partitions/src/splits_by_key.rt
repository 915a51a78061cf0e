//! Splits of classes by keys and by numbers.

ghost use Rattle.std.specs.Prelude.{◌≡◌, ◌<◌, IfOk, OnOk, length};
ghost use Rattle.std.specs.List.{All, range_with_len};
ghost use Rattle.std.specs.List.Sorted.{IsPermutation};
ghost use Rattle.partitions.specs.Layouts.{IsLaid, size, count, NoneIsChosen};
ghost use Rattle.partitions.specs.Refinements.{ArePlaces, IsPartedByNumbers, IsPartedByPairs};
ghost use Rattle.partitions.specs.steps.Steps.{
  AreChosen,
  AreInOrder,
  AreTogether,
  Chooses,
  ChoosesAll,
  IsCut,
  IsPartedBy,
  PartsOff,
  places_of,
};
ghost use Rattle.partitions.specs.Views.{layout};

use crate::classes_by_number::in_order;
use crate::exchange::{exchange, write_at};
use crate::pairs::Pair;
use crate::parts::Parts;
use crate::runs::{number_end, run_end};
use std::alloc::{AllocError, Global};

impl Parts {
    /// Chooses a place, if it isn't chosen yet.
    fn choose(&mut self, place: u32)
        requires laid { IsLaid (layout self.old) }
        requires there { place < size (layout self.old) }
        ensures { Chooses (layout self.old) (layout self.new) place }
    {
        let class = self.class[place as usize] as usize;
        let at = self.index[place as usize];
        let middle = self.middle[class];
        if at < middle {
            self.middle[class] = middle - 1;
            exchange(&mut self.order, &mut self.index, at, middle - 1);
        }
    }

    /// Splits the chosen places of a class from its others. The smaller part gets a new number.
    fn part(&mut self, class: u32) -> Result<(), AllocError>
        requires laid { IsLaid (layout self.old) }
        requires known { class < count (layout self.old) }
        ensures { OnOk result (PartsOff (layout self.old) (layout self.new) class) }
    {
        let first = self.first[class as usize];
        let middle = self.middle[class as usize];
        let end = self.end[class as usize];
        if first == middle {
            self.middle[class as usize] = end;
            return Ok(());
        }
        if middle == end {
            return Ok(());
        }
        if end - middle <= middle - first {
            self.split(class, first, middle, middle, end)
        } else {
            self.split(class, middle, end, first, middle)
        }
    }

    /// Begins a new class with one part of the places of a class: either the chosen ones or the
    /// others.
    fn split(
        &mut self,
        class: u32,
        first: u32,
        end: u32,
        new_first: u32,
        new_end: u32,
    ) -> Result<(), AllocError>
        requires laid { IsLaid (layout self.old) }
        requires known { class < count (layout self.old) }
        requires cut { IsCut (layout self.old) class first end new_first new_end }
        ensures { OnOk result (PartsOff (layout self.old) (layout self.new) class) }
    {
        let number = self.first.len() as u32;
        write_at(&mut self.class, &self.order, new_first, new_end, number);
        self.first[class as usize] = first;
        self.middle[class as usize] = end;
        self.end[class as usize] = end;
        self.first.push(new_first)?;
        self.middle.push(new_end)?;
        self.end.push(new_end)?;
        self.parent.push(class)?;
        Ok(())
    }

    /// Chooses these places.
    fn choose_all(&mut self, places: &[u32])
        requires laid { IsLaid (layout self.old) }
        requires places { ArePlaces (size (layout self.old)) places.now }
        ensures { ChoosesAll (layout self.old) (layout self.new) places.now (length places.now) }
    {
        for place in places {
            self.choose(*place);
        }
    }

    /// Splits the chosen places, which are `places`, from the others of their classes.
    fn part_chosen(&mut self, places: &[u32]) -> Result<(), AllocError>
        requires laid { IsLaid (layout self.old) }
        requires places { ArePlaces (size (layout self.old)) places.now }
        requires chosen { AreChosen (layout self.old) places.now }
        ensures { OnOk result (IsPartedBy (layout self.old) (layout self.new) places.now) }
    {
        for place in places {
            let class = self.class[*place as usize];
            self.part(class)?;
        }
        Ok(())
    }

    /// Splits each class into the places that are in `places` and the others, in time by the number
    /// of `places`.
    fn part_by(&mut self, places: &[u32]) -> Result<(), AllocError>
        requires laid { IsLaid (layout self.old) }
        requires places { ArePlaces (size (layout self.old)) places.now }
        requires settled { NoneIsChosen (layout self.old) }
        ensures { OnOk result (IsPartedBy (layout self.old) (layout self.new) places.now) }
    {
        self.choose_all(places);
        self.part_chosen(places)
    }

    /// Splits each class by the keys that its places have, one key after the other. `places` are
    /// the places of the pairs.
    fn part_by_runs(&mut self, pairs: &[Pair], places: &[u32]) -> Result<(), AllocError>
        requires laid { IsLaid (layout self.old) }
        requires settled { NoneIsChosen (layout self.old) }
        requires each { places.now ≡ places_of pairs.now }
        requires places { All (λ pair. pair.place < size (layout self.old)) pairs.now }
        requires together { AreTogether pairs.now }
        ensures { OnOk result (IsPartedByPairs (layout self.old) (layout self.new) pairs.now) }
    {
        let mut at = 0;
        while at < pairs.len() {
            let end = run_end(pairs, at);
            self.part_by(&places[at..end])?;
            at = end;
        }
        Ok(())
    }

    /// Splits each class by the keys that its places have. Two places stay in one class exactly if
    /// they were in one and have the same keys. A place may have any number of keys, and a pair may
    /// occur more than once.
    ///
    /// An old class keeps its number for some of its places; the others are in classes with new
    /// numbers. It takes time by the number of pairs times its logarithm. If memory runs out, the
    /// partition must not be used any more.
    pub fn part_by_pairs(&mut self, alloc: Global, pairs: Vec<Pair>) -> Result<(), AllocError>
        requires laid { IsLaid (layout self.old) }
        requires settled { NoneIsChosen (layout self.old) }
        requires places { All (λ pair. pair.place < size (layout self.old)) pairs.items }
        ensures { OnOk result (IsPartedByPairs (layout self.old) (layout self.new) pairs.items) }
    {
        let mut pairs = pairs;
        pairs.sort_unstable_by_key(|pair| (pair.class, pair.position));
        let places = places_of(alloc, &pairs)?;
        self.part_by_runs(&pairs, &places)
    }

    /// Splits each class by the numbers of its places. `order` has the places in the order of their
    /// numbers.
    fn part_in_order(&mut self, numbers: &[u32], order: &[u32]) -> Result<(), AllocError>
        requires laid { IsLaid (layout self.old) }
        requires settled { NoneIsChosen (layout self.old) }
        requires each { length numbers.now ≡ size (layout self.old) }
        requires places { IsPermutation (range_with_len 0 (length numbers.now)) order.now }
        requires order { AreInOrder numbers.now order.now }
        ensures { OnOk result (IsPartedByNumbers (layout self.old) (layout self.new) numbers.now) }
    {
        let mut at = 0;
        while at < order.len() {
            let end = number_end(numbers, order, at);
            self.part_by(&order[at..end])?;
            at = end;
        }
        Ok(())
    }

    /// Splits each class by numbers that all places have. Two places stay in one class exactly if
    /// they were in one and their numbers are equal.
    ///
    /// An old class keeps its number for some of its places; the others are in classes with new
    /// numbers. It takes time by the number of places if the numbers are below it, otherwise by
    /// that number times its logarithm. If memory runs out, the partition must not be used any
    /// more.
    pub fn part_by_numbers(&mut self, alloc: Global, numbers: &[u32]) -> Result<(), AllocError>
        requires laid { IsLaid (layout self.old) }
        requires settled { NoneIsChosen (layout self.old) }
        requires each { length numbers.now ≡ size (layout self.old) }
        ensures { OnOk result (IsPartedByNumbers (layout self.old) (layout self.new) numbers.now) }
    {
        let order = in_order(alloc, numbers)?;
        self.part_in_order(numbers, &order)
    }
}

/// Returns the places of these pairs, in turn.
fn places_of(alloc: Global, pairs: &[Pair]) -> Result<Vec<u32>, AllocError>
    ensures { IfOk result (λ v. v.items ≡ places_of pairs.now) }
{
    let mut places = Vec::with_capacity(alloc, pairs.len())?;
    for pair in pairs {
        places.push(pair.place)?;
    }
    Ok(places)
}
