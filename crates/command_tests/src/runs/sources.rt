//! A source that is read to its end, fails, or is too long.

use devices::counted::Counted;
use devices::device::Source;
use files::read::{ReadFault, read_whole};
use std::alloc::Global;
use std::io;
use std::io::Read;
use std::test::*;

// Delivers `left` bytes, at most 1000 per call, and then fails or ends.
#[derive(Drop)]
struct Letters {
    left: usize,
    fails: bool,
}

impl Read for Letters {
    fn read(&mut self, buf: &mut [u8]) -> io::Result<usize> {
        let count = buf.len().min(self.left).min(1000);
        if count == 0 && self.fails {
            return Err(io::Error::from(io::ErrorKind::BrokenPipe));
        }
        buf[..count].fill(b'x');
        self.left -= count;
        Ok(count)
    }
}

// Whether a source of `left` bytes before an end or a failure is read as expected under this limit.
fn is_read(
    alloc: Global,
    left: usize,
    fails: bool,
    limit: u64,
    want: Result<usize, ReadFault>,
) -> bool {
    let mut source = Counted::new(Letters { left, fails });
    let answer = match read_whole(alloc, &mut source, limit) {
        Ok(bytes) => Ok(bytes.len()),
        Err(fault) => Err(fault),
    };
    answer == want && source.failed() == (want == Err(ReadFault::Device))
}

// The number of bytes, whether a failure comes after them, the limit, and the expected result.
type Row = (usize, bool, u64, Result<usize, ReadFault>);

const ROWS: &'static [Row] = &[
    (0, false, 0, Ok(0)),
    (1, false, 0, Err(ReadFault::TooLarge)),
    (150000, false, 150000, Ok(150000)),
    (150001, false, 150000, Err(ReadFault::TooLarge)),
    (usize::MAX, false, 150000, Err(ReadFault::TooLarge)),
    (2000, false, u64::MAX, Ok(2000)),
    (2000, true, 150000, Err(ReadFault::Device)),
    (2000, true, 1999, Err(ReadFault::TooLarge)),
];

// Returns the number of the first row with another result, if any.
fn wrong_row(alloc: Global) -> Option<usize> {
    for i in 0..ROWS.len() {
        let (left, fails, limit, want) = ROWS[i];
        if !is_read(alloc, left, fails, limit, want) {
            return Some(i);
        }
    }
    None
}

#[test]
fn a_source_is_read_to_its_end(rt: HostRuntime) {
    assert_eq!(rt; wrong_row(rt.alloc()), None);
}
