//! Files that replace others in their folders.

use crate::links::follow_links;
use crate::node::Node;
use std::alloc::{AllocError, Global};
use std::fs::{File, Metadata, OpenOptions};
use std::io::ErrorKind;
use std::os::unix::fs::{MetadataExt, OpenOptionsExt, fchown};
use std::path::PathBuf;
use std::rt::Files;
use std::{fs, io};

/// The number of names that are tried for a file beside another one.
const NAMES: u32 = 10000;

/// The number of characters of a file's name that the name of the file beside it repeats. With four
/// bytes each, the rest still fits into the 255 bytes of a name.
const REPEATED: usize = 60;

/// The paths of a file that is written, and of the file in the same folder that it replaces.
#[derive(Drop)]
pub(crate) struct Replacement {
    beside: PathBuf,
    standing: PathBuf,
    /// The file that is replaced.
    pub(crate) node: Node,
}

/// Returns the path of the file `.NAME.stepmin-NUMBER` in the same folder, where NAME is the name of
/// the file at `standing`, or its beginning.
fn path_beside(alloc: Global, standing: &PathBuf, number: u32) -> Result<PathBuf, AllocError> {
    let mut name = String::from_str(alloc, ".")?;
    for letter in standing.file_name().unwrap_or("").chars().take(REPEATED) {
        name.push(letter)?;
    }
    name.push_str(".stepmin-")?;
    let mut digits = itoa::Buffer::new();
    name.push_str(digits.format(number))?;
    standing.with_file_name(alloc, name.as_str())
}

/// Creates a file to write it, with this mode. Returns `None` if there is something at the path, be
/// it a link that leads to nothing.
pub(crate) fn create_new<R: Files>(rt: &R, path: &str, mode: u32) -> io::Result<Option<R::File>> {
    let created = OpenOptions::new()
        .write(true)
        .create_new(true)
        .mode(mode)
        .open(rt, path);
    match created {
        Ok(file) => Ok(Some(file)),
        Err(error) if error.kind() == ErrorKind::AlreadyExists => Ok(None),
        Err(error) => Err(error),
    }
}

/// Creates a file beside `standing`, under the first free name. Only its owner may read and write
/// it.
fn create_beside<R: Files>(
    alloc: Global,
    rt: &R,
    standing: &PathBuf,
) -> io::Result<(R::File, PathBuf)> {
    for number in 0..NAMES {
        let beside = path_beside(alloc, standing, number)?;
        if let Some(file) = create_new(rt, beside.as_str(), 0o600)? {
            return Ok((file, beside));
        }
    }
    Err(io::Error::from(ErrorKind::AlreadyExists))
}

/// Whether a file has this owner and this group.
fn belongs_to(file: &File, owner: u32, group: u32) -> io::Result<bool> {
    let metadata = file.metadata()?;
    Ok(metadata.uid() == owner && metadata.gid() == group)
}

/// Gives a file the owner, the group and then the permissions of another one.
///
/// # Errors
/// - `PermissionDenied`, or another error, if the owner or the group can't be given;
/// - an error if the permissions can't be given.
fn inherit(file: &File, metadata: &Metadata) -> io::Result<()> {
    let (owner, group) = (metadata.uid(), metadata.gid());
    if !belongs_to(file, owner, group)? {
        fchown(file, Some(owner), Some(group))?;
        if !belongs_to(file, owner, group)? {
            return Err(io::Error::from(ErrorKind::PermissionDenied));
        }
    }
    file.set_permissions(metadata.permissions())
}

/// Whether the file `node` is at `path`.
fn is_at<R: Files>(rt: &R, path: &PathBuf, node: Node) -> io::Result<bool> {
    match fs::symlink_metadata(rt, path) {
        Ok(metadata) => Ok(Node::of(&metadata) == node),
        Err(error) if error.kind() == ErrorKind::NotFound => Ok(false),
        Err(error) => Err(error),
    }
}

impl Replacement {
    /// Creates a file beside the one that `path` leads to, which has this metadata. The new file has
    /// the old one's owner, group and permissions. Returns `None` if `path` leads to another file by
    /// now.
    pub(crate) fn make<R: Files<File = File>>(
        alloc: Global,
        rt: &R,
        path: &str,
        metadata: &Metadata,
    ) -> io::Result<Option<(File, Replacement)>> {
        let node = Node::of(metadata);
        let standing = follow_links(alloc, rt, path)?;
        if !is_at(rt, &standing, node)? {
            return Ok(None);
        }
        let (file, beside) = create_beside(alloc, rt, &standing)?;
        let replacement = Replacement {
            beside,
            standing,
            node,
        };
        if let Err(error) = inherit(&file, metadata) {
            replacement.remove(rt);
            return Err(error);
        }
        Ok(Some((file, replacement)))
    }

    /// Replaces the old file with the written one, which is synced. Removes the written one if that
    /// fails.
    pub(crate) fn take_place<R: Files>(&self, rt: &R) -> io::Result<()> {
        let renamed = fs::rename(rt, &self.beside, &self.standing);
        if renamed.is_err() {
            self.remove(rt);
        }
        renamed
    }

    /// Removes the written file. If it can't be removed it is left, which changes no other file.
    pub(crate) fn remove<R: Files>(&self, rt: &R) {
        let _left = fs::remove_file(rt, &self.beside);
    }
}
