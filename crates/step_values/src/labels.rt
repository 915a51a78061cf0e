//! Labels that replace references when values are compared.

ghost use Rattle.std.specs.Prelude.{◌≡◌};
ghost use Rattle.step_values.specs.Labels.{label_test, Labelling, renaming};
ghost use Rattle.step_values.specs.Maps.{led_by};

use std::collections::BTreeMap;

/// The label of a reference. A name and a class are never equal.
#[derive(Clone, Copy, Debug, PartialEq, Eq, PartialOrd, Ord, Hash)]
pub enum Label {
    /// The instance with this name.
    Name(u64),
    /// Some instance of the class with this number.
    Class(u32),
}

pub(crate) fn same_label(a: Label, b: Label) -> bool
    ensures { result ≡ label_test a b }
{
    match (a, b) {
        (Label::Name(y), Label::Name(z)) => y == z,
        (Label::Class(c), Label::Class(d)) => c == d,
        _ => false,
    }
}

/// The labels of references, for one side of a comparison.
pub trait Labels {
    /// The label and the name for each reference, from the name that it refers to.
    ghost labelling: { Self → Labelling };

    /// Returns the label of a reference that is in no bag of more than one member.
    fn outside(&self, name: u64) -> Label
        ensures { result ≡ (labelling self.now).outside name };

    /// Returns the name for a reference in a bag of more than one member.
    fn inside(&self, name: u64) -> u64
        ensures { result ≡ (labelling self.now).inside name };
}

/// The labelling in which each reference keeps its name.
#[derive(Clone, Copy)]
pub struct Itself;

impl Labels for Itself {
    ghost labelling = { λ _. renaming (λ y. y) };

    fn outside(&self, name: u64) -> Label {
        Label::Name(name)
    }

    fn inside(&self, name: u64) -> u64 {
        name
    }
}

/// A finite map from names to names.
pub type Map = BTreeMap<u64, u64>;

/// Returns the image of `name` under the map, or `name` itself if the map lacks it.
pub fn lead(map: &Map, name: u64) -> u64
    ensures { result ≡ led_by map.now name }
{
    map.get(&name).copied().unwrap_or(name)
}

/// The labelling in which each reference becomes its image under the map.
impl Labels for Map {
    ghost labelling = { λ m. renaming (led_by m) };

    fn outside(&self, name: u64) -> Label {
        Label::Name(lead(self, name))
    }

    fn inside(&self, name: u64) -> u64 {
        lead(self, name)
    }
}
