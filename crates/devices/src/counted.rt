//! Readers and writers of `std` as sources and sinks.

ghost use Rattle.std.specs.Prelude.{◌≡◌, false};

use crate::device::{Failed, Sink, Source};
use std::io::{Read, Write};

/// A reader or a writer that remembers whether it has failed.
#[derive(Drop)]
pub struct Counted<T> {
    inner: T,
    failed: bool,
}

impl<T> Counted<T> {
    /// Wraps a reader or writer that has not failed.
    pub fn new(inner: T) -> Counted<T>
        ensures whole { result.inner ≡ inner }
        ensures fresh { result.failed ≡ false }
    {
        Counted {
            inner,
            failed: false,
        }
    }

    /// Returns the reader or writer itself.
    pub fn into_inner(self) -> T
        ensures { result ≡ self.inner }
    {
        self.inner
    }
}

impl<R: Read> Source for Counted<R> {
    ghost to_come = { λ s. R.remaining s.inner };

    ghost has_failed = { λ s. s.failed };

    /// Calls `read` once.
    ///
    /// # Errors
    ///
    /// - `Failed` if `read` returns an error, including an interruption
    fn take(&mut self, buffer: &mut [u8]) -> Result<usize, Failed> {
        match self.inner.read(buffer) {
            Ok(count) => Ok(count),
            Err(_) => {
                self.failed = true;
                Err(Failed)
            }
        }
    }

    fn failed(&self) -> bool {
        self.failed
    }
}

impl<W: Write> Sink for Counted<W> {
    ghost held = { λ s. W.contents s.inner };

    ghost has_failed = { λ s. s.failed };

    /// Calls `write` once.
    ///
    /// # Errors
    ///
    /// - `Failed` if `write` returns an error, including an interruption
    /// - `Failed` if `write` accepts none of one or more bytes
    fn put(&mut self, bytes: &[u8]) -> Result<usize, Failed> {
        match self.inner.write(bytes) {
            Ok(count) if count > 0 || bytes.is_empty() => Ok(count),
            _ => {
                self.failed = true;
                Err(Failed)
            }
        }
    }

    fn failed(&self) -> bool {
        self.failed
    }
}
