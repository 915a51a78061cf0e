//! Rows that are printed to a sink with limited room.

ghost use Rattle.std.specs.Prelude.{◌≡◌, ◌++◌, ◌∷◌, [], ℕ, List, Option, Bool, false, is_err};
ghost use Rattle.devices.specs.steps.Prints.{Prints};
ghost use Rattle.devices.specs.Emits.{Emits};

use crate::rows::expect_none;
use devices::counted::Counted;
use devices::device::{Sink, WriteFault};
use devices::printer::Printer;
use std::alloc::Global;
use std::io;
use std::io::Write;

// Takes at most `step` bytes per call, and fails when `room` is used up.
#[derive(Drop)]
pub(crate) struct Limited {
    pub(crate) bytes: Vec<u8>,
    pub(crate) step: usize,
    pub(crate) room: usize,
}

impl Write for Limited {
    fn write(&mut self, buf: &[u8]) -> io::Result<usize> {
        let count = buf.len().min(self.step).min(self.room);
        if count == 0 {
            return Err(io::Error::from(io::ErrorKind::BrokenPipe));
        }
        self.bytes.extend_from_slice(&buf[..count])?;
        self.room -= count;
        Ok(count)
    }

    fn flush(&mut self) -> io::Result<()> {
        Ok(())
    }
}

fn print_row<S: Sink>(printer: &mut Printer, out: &mut S, name: &[u8], value: &[u8])
    ensures { Prints S.held S.has_failed out.old out.new printer.old printer.new
        ((35 ∷ []) ++ name.now ++ (61 ∷ []) ++ value.now ++ (10 ∷ [])) }
{
    printer.print_byte(out, b'#');
    printer.print(out, name);
    printer.print_byte(out, b'=');
    printer.print(out, value);
    printer.print_byte(out, b'\n');
}

fn write_row<S: Sink>(out: &mut S, name: &[u8], value: &[u8]) -> Result<(), WriteFault>
    ensures emits { Emits (S.held out.old) (S.held out.new)
        ((35 ∷ []) ++ name.now ++ (61 ∷ []) ++ value.now ++ (10 ∷ [])) result }
    ensures failed { S.has_failed out.old ≡ false → S.has_failed out.new ≡ is_err result }
{
    let mut printer = Printer::new();
    print_row(&mut printer, out, name, value);
    printer.finish(out)
}

// The step and the room of the sink, the bytes that are written, and the result.
type Row = (usize, usize, &'static [u8], Result<(), WriteFault>);

const ROWS: &'static [Row] = &[
    (1, 0, b"", Err(WriteFault { written: 0 })),
    (1, 1, b"#", Err(WriteFault { written: 1 })),
    (1, 4, b"#12=", Err(WriteFault { written: 4 })),
    (1, 7, b"#12=A;\n", Ok(())),
    (1, 8, b"#12=A;\n", Ok(())),
    (3, 0, b"", Err(WriteFault { written: 0 })),
    (3, 1, b"#", Err(WriteFault { written: 1 })),
    (3, 4, b"#12=", Err(WriteFault { written: 4 })),
    (3, 7, b"#12=A;\n", Ok(())),
    (3, 8, b"#12=A;\n", Ok(())),
    (100, 0, b"", Err(WriteFault { written: 0 })),
    (100, 1, b"#", Err(WriteFault { written: 1 })),
    (100, 4, b"#12=", Err(WriteFault { written: 4 })),
    (100, 7, b"#12=A;\n", Ok(())),
    (100, 8, b"#12=A;\n", Ok(())),
];

// Writes a row with this value to a sink that takes `step` bytes per call and has this room.
// Returns the bytes written, or `None` if the result isn't `wanted`.
fn sent(
    alloc: Global,
    value: &[u8],
    step: usize,
    room: usize,
    wanted: Result<(), WriteFault>,
) -> Option<Vec<u8>> {
    let mut sink = Counted::new(Limited {
        bytes: Vec::new(alloc),
        step,
        room,
    });
    if write_row(&mut sink, b"12", value) == wanted {
        Some(sink.into_inner().bytes)
    } else {
        None
    }
}

fn is_sent(alloc: Global, row: Row) -> bool {
    let (step, room, text, wanted) = row;
    match sent(alloc, b"A;", step, room, wanted) {
        Some(bytes) => bytes.as_slice() == text,
        None => false,
    }
}

fn wrong_row(alloc: Global, rows: &[Row]) -> Option<usize> {
    for i in 0..rows.len() {
        if !is_sent(alloc, rows[i]) {
            return Some(i);
        }
    }
    None
}

// Whether there are `count` bytes, from `#` to `last`.
fn end_in(bytes: &[u8], count: usize, last: u8) -> bool {
    bytes.len() == count && bytes.first() == Some(&b'#') && bytes.last() == Some(&last)
}

// Whether `count` bytes of a row with a large value are written to a sink with this room.
fn is_large_sent(
    alloc: Global,
    room: usize,
    wanted: Result<(), WriteFault>,
    count: usize,
    last: u8,
) -> bool {
    let value = [b'x'; 100000];
    match sent(alloc, &value, 70000, room, wanted) {
        Some(bytes) => end_in(&bytes, count, last),
        None => false,
    }
}

#[test]
fn rows_go_out_and_are_counted(rt: HostRuntime) {
    let alloc = rt.alloc();
    let fault = WriteFault { written: 99000 };
    expect_none(&rt, wrong_row(alloc, ROWS));
    assert!(rt; is_large_sent(alloc, 110000, Ok(()), 100005, b'\n'));
    assert!(rt; is_large_sent(alloc, 99000, Err(fault), 99000, b'x'));
}
