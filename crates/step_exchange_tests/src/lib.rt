//! Tests of the crates that read and write exchange structures.
#![tactic(auto)]

#[cfg(test)]
mod cells;
#[cfg(test)]
mod failing_devices;
#[cfg(test)]
mod literals;
#[cfg(test)]
mod prefixes;
#[cfg(test)]
mod printer;
#[cfg(test)]
mod rows;
#[cfg(test)]
mod texts;
