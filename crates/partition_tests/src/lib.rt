//! Tests of `partitions`, `partition_edges` and `partition_refinement`: classes that are found and numbered,
//! by public items alone.
#![tactic(auto)]

#[cfg(test)]
mod cases;
#[cfg(test)]
mod chains;
#[cfg(test)]
mod edges;
#[cfg(test)]
mod positions;
#[cfg(test)]
mod refinements;
#[cfg(test)]
mod tables;
