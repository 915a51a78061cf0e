//! Tests of the typed populations of small files, and of the instances that keep their identity.
#![tactic(auto)]

#[cfg(test)]
mod pins;
#[cfg(test)]
mod populations;
