//! Tests of `value_equality`, `certificate_checks` and `row_signatures`: populations, images, tables of
//! classes and outputs merged by them, kinds and references of rows, by public items alone.
#![tactic(auto)]

#[cfg(test)]
mod cases;
#[cfg(test)]
mod images;
#[cfg(test)]
mod labels;
#[cfg(test)]
mod populations;
#[cfg(test)]
mod rings;
#[cfg(test)]
mod signatures;
#[cfg(test)]
mod table_checks;
#[cfg(test)]
mod tables;
#[cfg(test)]
mod values;
