//! The standard streams.

use crate::node::Node;
use std::fs::File;
use std::io::ErrorKind;
use std::os::fd::{AsRawFd, IntoRawFd};
use std::rt::Files;
use std::{fs, io};

/// The number of the last standard stream, standard error.
const LAST: i32 = 2;

/// The regular files to which standard output and standard error go, if they do.
#[derive(Clone, Copy)]
pub(crate) struct Streams {
    pub(crate) output: Option<Node>,
    pub(crate) error: Option<Node>,
}

/// Opens what can be neither read nor written through this descriptor: the root folder, or the null
/// device if that folder may not be read.
fn open_holder<R: Files<File = File>>(rt: &R) -> io::Result<File> {
    match fs::open(rt, "/") {
        Err(error) if error.kind() == ErrorKind::PermissionDenied => fs::open(rt, "/dev/null"),
        opened => opened,
    }
}

/// Takes the descriptors of standard streams that are closed, so that no file is opened under one.
/// What is written to such a stream still fails.
///
/// # Errors
/// - an error if the root folder can't be opened.
pub fn hold_closed_streams<R: Files<File = File>>(rt: &R) -> io::Result<()> {
    for _ in 0..3 {
        let holder = open_holder(rt)?;
        if holder.as_raw_fd() > LAST {
            return Ok(());
        }
        let _held = holder.into_raw_fd();
    }
    Ok(())
}

/// Returns the regular file that is open as the standard stream at `path`, if it is one; `None` also
/// if the system has no such path, as without `/proc`.
fn file_of<R: Files>(rt: &R, path: &str) -> io::Result<Option<Node>> {
    match fs::metadata(rt, path) {
        Ok(metadata) => Ok(metadata.is_file().then_some(Node::of(&metadata))),
        Err(error) if error.kind() == ErrorKind::NotFound => Ok(None),
        Err(error) => Err(error),
    }
}

impl Streams {
    /// Returns where standard output and standard error go.
    ///
    /// # Errors
    /// - an error if the system doesn't report it.
    pub(crate) fn of<R: Files>(rt: &R) -> io::Result<Streams> {
        Ok(Streams {
            output: file_of(rt, "/proc/self/fd/1")?,
            error: file_of(rt, "/proc/self/fd/2")?,
        })
    }
}
