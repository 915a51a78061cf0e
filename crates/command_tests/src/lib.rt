//! Tests of command lines, over files in memory and in the file system.
#![tactic(auto)]

#[cfg(test)]
mod paths;
#[cfg(test)]
mod runs;
#[cfg(test)]
mod torn_files;
