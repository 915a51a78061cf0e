//! A sink with limited room.

use std::io;
use std::io::Write;

/// Takes at most `step` bytes per call, and fails when `room` is used up.
#[derive(Drop)]
pub(crate) struct Limited {
    pub(crate) bytes: Vec<u8>,
    pub(crate) step: usize,
    pub(crate) room: usize,
}

impl Write for Limited {
    fn write(&mut self, buf: &[u8]) -> io::Result<usize> {
        let count = buf.len().min(self.step).min(self.room);
        if count == 0 {
            return Err(io::Error::from(io::ErrorKind::BrokenPipe));
        }
        self.bytes.extend_from_slice(&buf[..count])?;
        self.room -= count;
        Ok(count)
    }

    fn flush(&mut self) -> io::Result<()> {
        Ok(())
    }
}
