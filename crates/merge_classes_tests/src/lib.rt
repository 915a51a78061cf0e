//! Tests of `merge_classes`: tables of random populations compared with those of a plain refinement, chains,
//! and a worked row.
#![tactic(auto)]

#[cfg(test)]
mod cases;
#[cfg(test)]
mod chains;
#[cfg(test)]
mod drawn_populations;
#[cfg(test)]
mod plain_refinement;
#[cfg(test)]
mod worked_row;
