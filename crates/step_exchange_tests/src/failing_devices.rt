//! Devices that fail, and a slice as a device.

ghost use Rattle.std.specs.Prelude.{◌≡◌, IfOk};

use devices::counted::Counted;
use devices::device::{Failed, Sink, Source};
use std::io;
use std::io::{Read, Write};

// Each call fails, except the second, which reads or writes no byte.
#[derive(Drop)]
struct Broken {
    calls: u8,
}

impl Broken {
    fn answer(&mut self) -> io::Result<usize>
        ensures { IfOk result (λ count. count ≡ 0) }
    {
        self.calls = self.calls.saturating_add(1);
        if self.calls == 2 {
            Ok(0)
        } else {
            Err(io::Error::from(io::ErrorKind::Interrupted))
        }
    }
}

impl Read for Broken {
    fn read(&mut self, _buf: &mut [u8]) -> io::Result<usize> {
        self.answer()
    }
}

impl Write for Broken {
    fn write(&mut self, _buf: &[u8]) -> io::Result<usize> {
        self.answer()
    }

    fn flush(&mut self) -> io::Result<()> {
        Ok(())
    }
}

// Whether a read returns this, and the source has failed by then.
fn fails_on(source: &mut Counted<Broken>, wanted: Result<usize, Failed>) -> bool {
    source.take(&mut [0; 4]) == wanted && Source::failed(source)
}

// Whether an error is remembered after the next read.
fn is_remembered() -> bool {
    let mut source = Counted::new(Broken { calls: 0 });
    let early = Source::failed(&source);
    let first = fails_on(&mut source, Err(Failed));
    let second = fails_on(&mut source, Ok(0));
    !early && first && second && source.into_inner().calls == 2
}

// Whether writing these bytes to a sink that takes none returns this, and fails as given.
fn is_put(bytes: &[u8], wanted: Result<usize, Failed>, failed: bool) -> bool {
    let mut sink = Counted::new(Broken { calls: 1 });
    sink.put(bytes) == wanted && Sink::failed(&sink) == failed
}

// Whether a read returns `count` and leaves these bytes in its buffer.
fn gives(source: &mut &[u8], count: usize, bytes: &[u8]) -> bool {
    let mut buffer = [0; 3];
    Source::take(source, &mut buffer) == Ok(count) && buffer.as_slice() == bytes
}

// Whether a slice delivers its bytes in turn.
fn is_given() -> bool {
    let mut source = "text".as_bytes();
    gives(&mut source, 3, b"tex")
        && gives(&mut source, 1, b"t\0\0")
        && gives(&mut source, 0, b"\0\0\0")
        && !Source::failed(&source)
}

#[test]
fn devices_give_and_take_or_fail(rt: HostRuntime) {
    assert!(rt; is_remembered());
    assert!(rt; is_put(b"text", Err(Failed), true));
    assert!(rt; is_put(b"", Ok(0), false));
    assert!(rt; is_given());
}
