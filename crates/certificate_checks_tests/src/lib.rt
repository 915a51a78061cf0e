//! Tests of `certificate_checks`: tables of small populations, judged by public items alone.
#![tactic(auto)]

#[cfg(test)]
mod cases;
#[cfg(test)]
mod populations;
#[cfg(test)]
mod tables;
