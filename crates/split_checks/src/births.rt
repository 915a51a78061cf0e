//! Births: classes that are split off others.

/// A class that is split off another one.
#[derive(Clone, Copy, Debug, PartialEq, Eq)]
pub struct Birth {
    /// The number of the class, counted from 0.
    pub class: usize,
    /// The number of the class that it is split off.
    pub parent: u32,
    /// The first round at which the class exists: at least 1, and later than the first round of its
    /// parent.
    pub round: u32,
}
