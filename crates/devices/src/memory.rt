//! Bytes in memory as a source.

ghost use Rattle.std.specs.Prelude.{Some, false};

use crate::device::{Failed, Source};
use std::io::Read;

/// A slice of bytes as a source. No call fails.
impl Source for &[u8] {
    ghost to_come = { λ bytes. Some bytes.now };

    ghost fails = { λ _. Some false };

    ghost has_failed = { λ _. false };

    /// Copies as many bytes as fit into the buffer.
    fn take(&mut self, buffer: &mut [u8]) -> Result<usize, Failed> {
        match self.read(buffer) {
            Ok(count) => Ok(count),
            Err(_) => Err(Failed),
        }
    }

    fn failed(&self) -> bool {
        false
    }
}
