//! Sources and sinks of bytes, and their errors.

ghost use Rattle.std.specs.Prelude.{
  ◌≡◌,
  ◌≤◌,
  ◌<◌,
  ℕ,
  List,
  Option,
  Bool,
  false,
  true,
  length,
  IfOk,
  IfSome,
  is_err,
  None,
};
ghost use Rattle.std.specs.Io.KnownBytes.{WriteAppends, ReadConsumes};

use thiserror::Error;

/// The error of a device that failed.
#[derive(Clone, Copy, Debug, PartialEq, Eq, Error)]
#[error("the device failed")]
pub struct Failed;

/// The error of a device that failed during writing, with the number of bytes written before, at
/// most 2^64 - 1.
#[derive(Clone, Copy, Debug, PartialEq, Eq, Error)]
#[error("the device failed after {written} bytes")]
pub struct WriteFault {
    pub written: u64,
}

/// A source of bytes.
pub trait Source {
    // the bytes still to come, if the source reveals them
    ghost to_come: { Self → Option (List ℕ) } = { λ _. None };

    // whether every call fails (`true`) or none does (`false`), if the source reveals that
    ghost fails: { Self → Option Bool } = { λ _. None };

    // whether a call has failed
    ghost has_failed: { Self → Bool };

    /// Writes the next bytes to the start of `buffer`, and returns how many. 0 for a non-empty
    /// buffer means the end.
    ///
    /// # Errors
    ///
    /// - `Failed` if the device fails; no byte is consumed then
    fn take(&mut self, buffer: &mut [u8]) -> Result<usize, Failed>
        ensures count { IfOk result (λ n. n ≤ length buffer.new) }
        ensures bytes { ReadConsumes (to_come self.old) (to_come self.new) result buffer.new }
        ensures told { IfSome (fails self.old) (λ each. is_err result ≡ each) }
        ensures same { fails self.new ≡ fails self.old }
        ensures failed { has_failed self.old ≡ false → has_failed self.new ≡ is_err result }
        ensures for_good { has_failed self.old ≡ true → has_failed self.new ≡ true };

    /// Whether a call has failed.
    fn failed(&self) -> bool
        ensures { result ≡ has_failed self.now };
}

/// A sink of bytes.
pub trait Sink {
    // the bytes that the sink holds, if it reveals them
    ghost held: { Self → Option (List ℕ) } = { λ _. None };

    // whether a call has failed
    ghost has_failed: { Self → Bool };

    /// Writes a prefix of `bytes`, and returns its length. The prefix is empty only if `bytes` is
    /// empty.
    ///
    /// # Errors
    ///
    /// - `Failed` if the device fails; no byte is written then
    fn put(&mut self, bytes: &[u8]) -> Result<usize, Failed>
        ensures count { IfOk result (λ n. n ≤ length bytes.now) }
        ensures some { IfOk result (λ n. 0 < length bytes.now → 0 < n) }
        ensures bytes { WriteAppends (held self.old) (held self.new) result bytes.now }
        ensures failed { has_failed self.old ≡ false → has_failed self.new ≡ is_err result }
        ensures for_good { has_failed self.old ≡ true → has_failed self.new ≡ true };

    /// Whether a call has failed.
    fn failed(&self) -> bool
        ensures { result ≡ has_failed self.now };
}
