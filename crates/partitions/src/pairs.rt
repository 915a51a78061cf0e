//! Keys of places.

/// A place with one of its keys. A key is a class and a position: at this position, the place
/// refers to a place of this class.
#[derive(Clone, Copy, Debug, PartialEq, Eq)]
pub struct Pair {
    pub position: u64,
    pub class: u32,
    pub place: u32,
}
