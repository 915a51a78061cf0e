//! Files that are read.

ghost use Rattle.std.specs.Prelude.{◌≡◌, ℕ, List, MatchResult, None, Option};
ghost use Rattle.file_store.specs.steps.Told.{TellsAs, told_once};

use std::io;
use std::io::{ErrorKind, Read};

/// Why a file isn't open, and the opener, for another attempt.
#[derive(Drop)]
pub struct Unopened<O: Drop> {
    pub error: io::Error,
    pub opener: O,
}

/// A value that opens a file, once.
pub trait FileOpener: Drop {
    // the content of the file, if the opener reveals it
    ghost holds: { Self → Option (List ℕ) } = { λ _. None };

    /// The open file.
    type File: Read + Drop;

    /// Opens the file. If it can't be opened, the opener is returned with the error.
    fn open(self) -> Result<Self::File, Unopened<Self>>
        ensures { MatchResult result
            (λ file. TellsAs (holds self) (Self.File.remaining file))
            (λ unopened. holds unopened.opener ≡ holds self) };
}

/// A file that is opened at the first read, and once. It reads the content of the file from the
/// first byte on, and its errors are those of the file. The opener is used up once the file is
/// open.
#[derive(Drop)]
pub struct Opening<O: FileOpener> {
    opener: Option<O>,
    file: Option<O::File>,
}

impl<O: FileOpener> Opening<O> {
    /// Returns a reader of the file that `opener` opens, which isn't open yet.
    pub fn new(opener: O) -> Opening<O>
        ensures { O.holds opener ≡ told_once O.holds O.File.remaining result.opener result.file }
    {
        Opening {
            opener: Some(opener),
            file: None,
        }
    }
}

impl<O: FileOpener> Read for Opening<O> {
    ghost remaining = { λ s. told_once O.holds O.File.remaining s.opener s.file };

    /// Reads from the file, which is opened at the first call.
    ///
    /// # Errors
    /// An error if the file can't be opened, or if the read fails.
    fn read(&mut self, buf: &mut [u8]) -> io::Result<usize> {
        if let Some(file) = &mut self.file {
            return file.read(buf);
        }
        let Some(opener) = self.opener.take() else {
            return Err(io::Error::from(ErrorKind::Other));
        };
        match opener.open() {
            Ok(file) => self.file.insert(file).read(buf),
            Err(unopened) => {
                let Unopened { error, opener } = unopened;
                self.opener = Some(opener);
                Err(error)
            }
        }
    }
}
