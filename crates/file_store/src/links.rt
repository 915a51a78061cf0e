//! Symbolic links, followed to their last name.

use std::alloc::Global;
use std::io::ErrorKind;
use std::path::PathBuf;
use std::rt::Files;
use std::{fs, io};

/// The number of links that are followed, one after another, as on Linux.
const LINKS: u32 = 40;

/// Whether `path` is a symbolic link. A path at which there is nothing isn't one.
fn is_link<R: Files>(rt: &R, path: &str) -> io::Result<bool> {
    match fs::symlink_metadata(rt, path) {
        Ok(metadata) => Ok(metadata.is_symlink()),
        Err(error) if error.kind() == ErrorKind::NotFound => Ok(false),
        Err(error) => Err(error),
    }
}

/// Returns the path that remains once the links at the end of `path` are followed, whether or not a
/// file is there.
///
/// # Errors
/// - `FilesystemLoop` if there are more than 40 links;
/// - an error if a link can't be read, or if memory runs out.
pub(crate) fn follow_links<R: Files>(alloc: Global, rt: &R, path: &str) -> io::Result<PathBuf> {
    let mut reached = PathBuf::from_str(alloc, path)?;
    for _ in 0..LINKS {
        if !is_link(rt, reached.as_str())? {
            return Ok(reached);
        }
        let target = rt.read_link(alloc, reached.as_str())?;
        reached = reached.with_file_name(alloc, target.as_str())?;
    }
    Err(io::Error::from(ErrorKind::FilesystemLoop))
}
