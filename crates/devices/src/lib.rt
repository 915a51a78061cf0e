//! Sources and sinks of bytes: readers and writers that remember a failure, and a buffered printer
//! that counts the bytes that it wrote.
#![tactic(auto)]

pub mod counted;
pub mod device;
pub mod memory;
pub mod printer;
