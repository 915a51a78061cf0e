//! A command line over a file in memory, and outputs with limited room.

ghost use Rattle.std.specs.Prelude.{Some, None, codes, option_map};
ghost use Rattle.std.specs.Bool.{if◌then◌else◌};
ghost use Rattle.std.specs.Str.{bytes_eq};

mod checks;
mod lines;
mod sources;
mod texts;

use commands::command::run_command;
use devices::counted::Counted;
use files::store::Store;
use resources::Resources;
use std::alloc::Global;
use std::io;
use std::io::{Read, Write};

const FILE: &str = "ISO-10303-21;\n\
    HEADER;\n\
    FILE_DESCRIPTION((''),'2;1');\n\
    FILE_NAME('','',(''),(''),'','','');\n\
    FILE_SCHEMA(('GEO'));\n\
    ENDSEC;\n\
    DATA;\n\
    ENDSEC;\n\
    END-ISO-10303-21;\n";

// A file that is read: `None` if it doesn't exist. If `breaks`, it fails at its end.
#[derive(Drop)]
struct Book<'b> {
    left: Option<&'b [u8]>,
    breaks: bool,
}

impl Read for Book<'_> {
    ghost remaining = { λ book. option_map (λ left. left.now) book.left };

    fn read(&mut self, buf: &mut [u8]) -> io::Result<usize> {
        let Some(left) = self.left else {
            return Err(io::Error::from(io::ErrorKind::NotFound));
        };
        if left.is_empty() && self.breaks {
            return Err(io::Error::from(io::ErrorKind::BrokenPipe));
        }
        let count = buf.len().min(left.len()).min(7);
        buf[..count].copy_from_slice(&left[..count]);
        self.left = Some(&left[count..]);
        Ok(count)
    }
}

// A sink that keeps its bytes, and fails when `room` is used up.
#[derive(Drop)]
struct Paper {
    bytes: Vec<u8>,
    room: usize,
}

impl Paper {
    fn new(alloc: Global, room: usize) -> Paper {
        Paper {
            bytes: Vec::new(alloc),
            room,
        }
    }
}

impl Write for Paper {
    fn write(&mut self, buf: &[u8]) -> io::Result<usize> {
        let count = buf.len().min(self.room).min(5);
        if count == 0 {
            return Err(io::Error::from(io::ErrorKind::BrokenPipe));
        }
        if self.bytes.extend_from_slice(&buf[..count]).is_err() {
            return Err(io::Error::from(io::ErrorKind::OutOfMemory));
        }
        self.room -= count;
        Ok(count)
    }

    fn flush(&mut self) -> io::Result<()> {
        Ok(())
    }
}

// A store of two files, the schema `S` and the file `F`.
#[derive(Drop)]
struct Shelf<'b> {
    alloc: Global,
    schema: &'b [u8],
    file: &'b [u8],
    breaks: bool,
}

impl<'p, 'b> Store<'p> for Shelf<'b> {
    ghost contents = { λ shelf path. if bytes_eq path (codes "S") then Some shelf.schema.now
        else (if bytes_eq path (codes "F") then Some shelf.file.now else None) };

    type Reader = Counted<Book<'b>>;

    type Writer = Counted<Paper>;

    fn reader(&mut self, path: &'p str) -> Counted<Book<'b>> {
        let left = if path == "S" {
            Some(self.schema)
        } else if path == "F" {
            Some(self.file)
        } else {
            None
        };
        Counted::new(Book {
            left,
            breaks: self.breaks,
        })
    }

    fn writer(&mut self, _path: &'p str) -> Counted<Paper> {
        Counted::new(Paper::new(self.alloc, usize::MAX))
    }

    fn keep(&mut self, _path: &'p str, _writer: Counted<Paper>) {}
}

// The outcome of a run.
#[derive(Drop)]
struct Ending {
    status: u8,
    out: Vec<u8>,
    err: Vec<u8>,
}

impl Ending {
    // Whether the run ended with this status and these bytes on the outputs.
    fn comes_to(&self, status: u8, out: &[u8], err: &[u8]) -> bool {
        self.status == status && self.out.as_slice() == out && self.err.as_slice() == err
    }
}

// Adds owned copies of the arguments. Returns `false` if memory runs out.
fn add_words(alloc: Global, owned: &mut Vec<String>, words: &[&str]) -> bool {
    for word in words {
        let Ok(word) = String::from_str(alloc, word) else {
            return false;
        };
        if owned.push(word).is_err() {
            return false;
        }
    }
    true
}

// Runs a command line over a store, with this room for the outputs.
fn run_in<'p, S: Store<'p>>(
    resources: Resources,
    words: &'p [String],
    store: &mut S,
    out_room: usize,
    err_room: usize,
) -> Ending {
    let mut out = Counted::new(Paper::new(resources.alloc, out_room));
    let mut err = Counted::new(Paper::new(resources.alloc, err_room));
    let status = run_command(resources, words, store, &mut out, &mut err);
    Ending {
        status,
        out: out.into_inner().bytes,
        err: err.into_inner().bytes,
    }
}

// Runs a command line over the file, with this room for the outputs; `None` if memory runs out.
fn run(
    resources: Resources,
    words: &[&str],
    file: &str,
    breaks: bool,
    out_room: usize,
    err_room: usize,
) -> Option<Ending> {
    let mut owned = Vec::new(resources.alloc);
    if !add_words(resources.alloc, &mut owned, words) {
        return None;
    }
    let mut store = Shelf {
        alloc: resources.alloc,
        schema: b"",
        file: file.as_bytes(),
        breaks,
    };
    Some(run_in(resources, &owned, &mut store, out_room, err_room))
}
