//! Files that fail in the middle.

ghost use Rattle.std.specs.Prelude.{◌≡◌, IfOk};

use devices::counted::Counted;
use devices::device::{Failed, Sink, Source};
use file_store::read_files::{FileOpener, Opening, Unopened};
use file_store::written_files::{FileMaker, Making};
use files::read::{ReadFault, read_whole};
use std::alloc::Global;
use std::io;
use std::io::{Read, Write};

// A file that can be used once more before it fails.
#[derive(Drop)]
struct Torn {
    is_whole: bool,
}

impl Torn {
    // Returns `count` at the first call, and fails afterwards.
    fn once(&mut self, count: usize) -> io::Result<usize>
        ensures { IfOk result (λ n. n ≡ count) }
    {
        if !self.is_whole {
            return Err(io::Error::from(io::ErrorKind::BrokenPipe));
        }
        self.is_whole = false;
        Ok(count)
    }
}

impl Read for Torn {
    fn read(&mut self, buf: &mut [u8]) -> io::Result<usize> {
        self.once(buf.len().min(4))
    }
}

impl Write for Torn {
    fn write(&mut self, buf: &[u8]) -> io::Result<usize> {
        self.once(buf.len().min(4))
    }

    fn flush(&mut self) -> io::Result<()> {
        Ok(())
    }
}

// Opens or creates a torn file.
#[derive(Drop)]
struct Place;

impl FileOpener for Place {
    type File = Torn;

    fn open(self) -> Result<Torn, Unopened<Place>> {
        Ok(Torn { is_whole: true })
    }
}

impl FileMaker for Place {
    type File = Torn;

    fn make(&mut self) -> io::Result<Torn> {
        Ok(Torn { is_whole: true })
    }
}

// Whether a failure at the second read is reported, and isn't taken for the end of the file.
fn is_no_end(alloc: Global) -> bool {
    let mut reader = Counted::new(Opening::new(Place));
    let read = read_whole(alloc, &mut reader, 1000);
    read == Err(ReadFault::Device) && Source::failed(&reader)
}

// Whether a failure at the second write is reported.
fn is_not_written() -> bool {
    let mut writer = Counted::new(Making::new(Place));
    let first = writer.put(b"text that");
    let second = writer.put(b" that");
    first == Ok(4) && second == Err(Failed) && Sink::failed(&writer)
}

#[test]
fn a_file_that_fails_in_its_middle_says_so(rt: HostRuntime) {
    assert!(rt; is_no_end(rt.alloc()));
    assert!(rt; is_not_written());
}
