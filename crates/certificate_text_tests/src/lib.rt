//! Tests of `certificate_text`: certificates that are read and written, by its public items alone.
#![tactic(auto)]

#[cfg(test)]
mod cases;
#[cfg(test)]
mod round_trips;
#[cfg(test)]
mod texts;
