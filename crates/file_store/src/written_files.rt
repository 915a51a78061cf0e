//! Files that are written.

ghost use Rattle.std.specs.Prelude.{◌≡◌, ◌≤◌, ℕ, IfOk, List, None, Option, length};
ghost use Rattle.std.specs.Io.KnownBytes.{WriteAppends};
ghost use Rattle.file_store.specs.steps.Told.{TellsAs, told};

use std::io;
use std::io::Write;

/// A value that creates a file.
pub trait FileMaker {
    // the content of a file that was just created, if the maker reveals it
    ghost holds: { Self → Option (List ℕ) } = { λ _. None };

    /// The created file.
    type File: Write + Drop;

    /// Creates the file.
    ///
    /// # Errors
    /// An error if the file can't be created.
    fn make(&mut self) -> io::Result<Self::File>
        ensures made { IfOk result (λ file. TellsAs (holds self.old) (Self.File.contents file)) }
        ensures same { holds self.new ≡ holds self.old };
}

/// A file that is created at the first write, and once. It holds what was written, and its errors
/// are those of the file.
#[derive(Drop)]
pub struct Making<M: FileMaker + Drop> {
    pub(crate) maker: M,
    pub(crate) file: Option<M::File>,
    pub(crate) written: u64,
}

impl<M: FileMaker + Drop> Making<M> {
    /// Returns a writer of the file that `maker` creates, which isn't created yet.
    pub fn new(maker: M) -> Making<M>
        ensures { told M.File.contents (M.holds result.maker) result.file ≡ M.holds maker }
    {
        Making {
            maker,
            file: None,
            written: 0,
        }
    }

    /// Writes to the file, which is created by the first write of at least one byte.
    fn write_some(&mut self, buf: &[u8]) -> io::Result<usize>
        ensures bound { IfOk result (λ count. count ≤ length buf.now) }
        ensures bytes { WriteAppends
            (told M.File.contents (M.holds self.old.maker) self.old.file)
            (told M.File.contents (M.holds self.new.maker) self.new.file) result buf.now }
    {
        if let Some(file) = &mut self.file {
            return file.write(buf);
        }
        if buf.is_empty() {
            return Ok(0);
        }
        let file = self.maker.make()?;
        self.file.insert(file).write(buf)
    }
}

impl<M: FileMaker + Drop> Write for Making<M> {
    ghost contents = { λ s. told M.File.contents (M.holds s.maker) s.file };

    /// Writes to the file, which is created by the first write of at least one byte.
    ///
    /// # Errors
    /// An error if the file can't be created, or if the write fails.
    fn write(&mut self, buf: &[u8]) -> io::Result<usize> {
        let count = self.write_some(buf)?;
        self.written = self.written.saturating_add(count as u64);
        Ok(count)
    }

    fn flush(&mut self) -> io::Result<()> {
        Ok(())
    }
}
