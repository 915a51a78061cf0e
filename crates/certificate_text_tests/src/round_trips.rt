//! Tables that are written to a sink with limited room, and read again.

use certificate_text::read::read_certificate;
use certificate_text::write::write_certificate;
use devices::counted::Counted;
use devices::device::WriteFault;
use std::alloc::Global;
use std::io;
use std::io::Write;
use value_equality::table::{Origin, Table};

/// Points that split in round 1, and their placements in round 2.
const PARTED: &'static [Origin] = &[
    Origin::Start,
    Origin::Start,
    Origin::Split {
        parent: 0,
        round: 1,
    },
    Origin::Split {
        parent: 1,
        round: 2,
    },
];

const PARTED_MEMBERS: &'static [(u64, u32)] = &[(1, 0), (2, 2), (3, 1), (4, 3)];

/// Points that are equal, as are their placements.
const EQUAL: &'static [Origin] = &[Origin::Start, Origin::Start];

const EQUAL_MEMBERS: &'static [(u64, u32)] = &[(1, 0), (2, 0), (3, 1), (4, 1)];

/// The certificate of both tables.
const TEXT: &'static [u8] =
    b"STEPCERT 2\ntable 1\nrounds 2\nC0\nC1\nC2=C0@1\nC3=C1@2\n#1=C0\n#2=C2\n#3=C1\n#4=C3\ntable 2\nrounds 0\nC0\nC1\n#1=C0\n#2=C0\n#3=C1\n#4=C1\nend\n";

/// Takes one byte per call, and fails when `room` is used up.
#[derive(Drop)]
struct Limited {
    bytes: Vec<u8>,
    room: usize,
}

impl Write for Limited {
    fn write(&mut self, buf: &[u8]) -> io::Result<usize> {
        let count = buf.len().min(1).min(self.room);
        if count == 0 {
            return Err(io::Error::from(io::ErrorKind::BrokenPipe));
        }
        self.bytes.extend_from_slice(&buf[..count])?;
        self.room -= count;
        Ok(count)
    }

    fn flush(&mut self) -> io::Result<()> {
        Ok(())
    }
}

/// Whether the certificate of two tables is written, or as much of it as there is room for.
fn is_sent(alloc: Global, first: &Table, second: &Table, room: usize) -> bool {
    let mut sink = Counted::new(Limited {
        bytes: Vec::new(alloc),
        room,
    });
    let wanted = if room < TEXT.len() {
        Err(WriteFault {
            written: room as u64,
        })
    } else {
        Ok(())
    };
    write_certificate(first, second, &mut sink) == wanted
        && sink.into_inner().bytes.as_slice() == &TEXT[..room.min(TEXT.len())]
}

/// Returns the first room with which another prefix is written, if any.
fn wrong_room(alloc: Global, first: &Table, second: &Table) -> Option<usize> {
    for room in 0..TEXT.len() + 2 {
        if !is_sent(alloc, first, second, room) {
            return Some(room);
        }
    }
    None
}

/// Whether the text is read as these tables.
fn is_read(alloc: Global, first: &Table, second: &Table) -> bool {
    match read_certificate(alloc, TEXT, 2) {
        Ok((one, other)) => one == *first && other == *second,
        Err(_) => false,
    }
}

/// Fills a table. Returns `false` if memory runs out.
fn fill(table: &mut Table, classes: &[Origin], members: &[(u64, u32)]) -> bool {
    table.classes.extend_from_slice(classes).is_ok()
        && table.members.extend_from_slice(members).is_ok()
}

/// Returns a table without classes and members.
fn empty(alloc: Global, rounds: u32) -> Table {
    Table {
        rounds,
        classes: Vec::new(alloc),
        members: Vec::new(alloc),
    }
}

/// Whether the text of two tables is read as these, and is written with each room.
pub(crate) fn is_right(alloc: Global) -> bool {
    let mut first = empty(alloc, 2);
    let mut second = empty(alloc, 0);
    fill(&mut first, PARTED, PARTED_MEMBERS)
        && fill(&mut second, EQUAL, EQUAL_MEMBERS)
        && is_read(alloc, &first, &second)
        && wrong_room(alloc, &first, &second).is_none()
}
