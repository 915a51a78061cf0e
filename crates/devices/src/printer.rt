//! A buffered printer that remembers a failure of its sink.

ghost use Rattle.std.specs.Prelude.{
  ◌≡◌,
  ◌≤◌,
  ◌+◌,
  ◌↔◌,
  ◌++◌,
  ◌∷◌,
  [],
  ℕ,
  List,
  Option,
  Bool,
  false,
  true,
  length,
  take,
  MatchResult,
  is_err,
  IsTrue,
};
ghost use Rattle.devices.specs.steps.Prints.{Printing, fresh, Sends, Prints, Finishes};

use crate::device::{Failed, Sink, WriteFault};
use std::marker::Model;

const ROOM: usize = 65536;

/// A buffer of bytes for a sink, and the number of bytes written to the sink so far. Once the sink
/// fails, the printer has stopped, and prints nothing from then on.
#[derive(Drop)]
pub struct Printer {
    bytes: [u8; ROOM],
    len: usize,
    written: u64,
    stopped: bool,
}

impl Model for Printer {
    ghost use Rattle.std.specs.Prelude.{◌≤◌, take};
    ghost use Rattle.devices.specs.steps.Prints.{Printing};

    ghost Value = { Printing };

    ghost view = { λ p. record {
      waiting = take p.len p.bytes;
      written = p.written;
      stopped = p.stopped;
    } };

    ghost invariant = { λ p. p.len ≤ 65536 };
}

/// Writes `bytes` to `out` piece by piece, and adds the number of bytes written to `written`.
fn send<S: Sink>(out: &mut S, written: &mut u64, bytes: &[u8]) -> Result<(), Failed>
    ensures sent { MatchResult result
        (λ _. Sends (S.held out.old) (S.held out.new) [] written.old written.new bytes.now [])
        (λ _. (left : List ℕ)
        × Sends (S.held out.old) (S.held out.new) [] written.old written.new bytes.now left) }
    ensures failed { S.has_failed out.old ≡ false → S.has_failed out.new ≡ is_err result }
{
    let _before = *written;
    let mut rest = bytes;
    while !rest.is_empty() {
        let count = out.put(rest)?;
        *written = written.saturating_add(count as u64);
        let (_, further) = rest.split_at(count);
        rest = further;
    }
    Ok(())
}

impl Printer {
    /// Returns a printer with an empty buffer, which has written nothing.
    pub fn new() -> Printer
        ensures { result ≡ fresh }
    {
        Printer {
            bytes: [0; ROOM],
            len: 0,
            written: 0,
            stopped: false,
        }
    }

    /// Writes the buffer to `out`.
    pub fn flush<S: Sink>(&mut self, out: &mut S)
        ensures prints { Prints S.held S.has_failed out.old out.new self.old self.new [] }
        ensures nothing_waits { self.new.stopped ≡ false → self.new.waiting ≡ [] }
    {
        if self.stopped {
            return;
        }
        match send(out, &mut self.written, &self.bytes[..self.len]) {
            Ok(()) => self.len = 0,
            Err(_) => self.stopped = true,
        }
    }

    // Whether `count` more bytes fit into the buffer.
    fn has_room(&self, count: usize) -> bool
        ensures { IsTrue result ↔ (length self.now.waiting + count ≤ 65536) }
    {
        count <= ROOM - self.len
    }

    // Appends the bytes to the buffer.
    fn keep(&mut self, bytes: &[u8])
        requires { length self.old.waiting + length bytes.now ≤ 65536 }
        ensures { self.new ≡ record self.old { waiting = self.old.waiting ++ bytes.now } }
    {
        let end = self.len + bytes.len();
        self.bytes[self.len..end].copy_from_slice(bytes);
        self.len = end;
    }

    // Writes the bytes to `out` at once. The buffer must be empty, unless the printer has stopped.
    fn pass<S: Sink>(&mut self, out: &mut S, bytes: &[u8])
        requires { self.old.stopped ≡ false → self.old.waiting ≡ [] }
        ensures { Prints S.held S.has_failed out.old out.new self.old self.new bytes.now }
    {
        if !self.stopped {
            self.stopped = send(out, &mut self.written, bytes).is_err();
        }
    }

    // Flushes the buffer. Then it buffers the bytes if they are fewer than `ROOM`, otherwise it
    // writes them at once.
    fn make_way<S: Sink>(&mut self, out: &mut S, bytes: &[u8])
        ensures { Prints S.held S.has_failed out.old out.new self.old self.new bytes.now }
    {
        self.flush(out);
        if bytes.len() < ROOM && !self.stopped {
            self.keep(bytes);
        } else {
            self.pass(out, bytes);
        }
    }

    /// Prints the bytes: buffers them, or writes them to `out`.
    pub fn print<S: Sink>(&mut self, out: &mut S, bytes: &[u8])
        ensures { Prints S.held S.has_failed out.old out.new self.old self.new bytes.now }
    {
        if self.stopped {
            return;
        }
        if self.has_room(bytes.len()) {
            self.keep(bytes);
        } else {
            self.make_way(out, bytes);
        }
    }

    /// Prints one byte.
    pub fn print_byte<S: Sink>(&mut self, out: &mut S, byte: u8)
        ensures { Prints S.held S.has_failed out.old out.new self.old self.new (byte ∷ []) }
    {
        if self.stopped {
            return;
        }
        if self.len < ROOM {
            self.bytes[self.len] = byte;
            self.len += 1;
        } else {
            self.make_way(out, &[byte]);
        }
    }

    /// Writes the buffer to `out`.
    ///
    /// # Errors
    ///
    /// - `WriteFault` if the sink fails or failed before, with the number of bytes written
    pub fn finish<S: Sink>(mut self, out: &mut S) -> Result<(), WriteFault>
        ensures { Finishes S.held S.has_failed out.old out.new self result }
    {
        self.flush(out);
        if self.stopped {
            return Err(WriteFault {
                written: self.written,
            });
        }
        Ok(())
    }
}
