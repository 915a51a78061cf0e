//! Where paths lead.

use crate::links::follow_links;
use crate::node::Node;
use std::alloc::Global;
use std::fs::Metadata;
use std::io::ErrorKind;
use std::os::unix::fs::MetadataExt;
use std::path::{Path, PathBuf};
use std::rt::Files;
use std::{fs, io};

/// A name in a folder.
#[derive(Drop)]
pub struct Entry {
    pub folder: Node,
    pub name: String,
}

/// Where a path leads once its links are followed.
#[derive(Drop)]
pub enum Place {
    /// To no file, in a folder that doesn't exist.
    Nowhere,
    /// To a pipe, a terminal, another device or a folder.
    Other,
    /// To a regular file. `entry` is the name at the path's end if the file has several (hard
    /// links).
    File { node: Node, entry: Option<Entry> },
    /// To a name at which there is no file.
    Free(Entry),
}

/// Returns the folder part of a path; `.` if it has none.
fn folder_of<'p>(path: Path<'p>) -> &'p str {
    match path.parent() {
        Some(folder) if !folder.as_str().is_empty() => folder.as_str(),
        _ => ".",
    }
}

/// Returns the name at the end of a path, in its folder.
///
/// # Errors
/// - `NotFound` if the path ends in no name, or if its folder doesn't exist;
/// - another error if the folder can't be looked at, or if memory runs out.
fn entry_at<R: Files>(alloc: Global, rt: &R, path: &PathBuf) -> io::Result<Entry> {
    let path = path.as_path();
    let Some(name) = path.file_name() else {
        return Err(io::Error::from(ErrorKind::NotFound));
    };
    let folder = Node::of(&fs::metadata(rt, folder_of(path))?);
    let name = String::from_str(alloc, name)?;
    Ok(Entry { folder, name })
}

/// Returns where a path leads that reaches what has this metadata.
fn standing_place<R: Files>(
    alloc: Global,
    rt: &R,
    path: &str,
    metadata: &Metadata,
) -> io::Result<Place> {
    if !metadata.is_file() {
        return Ok(Place::Other);
    }
    let node = Node::of(metadata);
    if metadata.nlink() <= 1 {
        return Ok(Place::File { node, entry: None });
    }
    let reached = follow_links(alloc, rt, path)?;
    let entry = Some(entry_at(alloc, rt, &reached)?);
    Ok(Place::File { node, entry })
}

/// Returns where a path leads that reaches no file.
fn free_place<R: Files>(alloc: Global, rt: &R, path: &str) -> io::Result<Place> {
    let reached = follow_links(alloc, rt, path)?;
    match entry_at(alloc, rt, &reached) {
        Ok(entry) => Ok(Place::Free(entry)),
        Err(error) if error.kind() == ErrorKind::NotFound => Ok(Place::Nowhere),
        Err(error) => Err(error),
    }
}

/// Returns where a path leads.
///
/// # Errors
/// - an error if what is on the way can't be looked at, or if memory runs out.
pub(crate) fn place_of<R: Files>(alloc: Global, rt: &R, path: &str) -> io::Result<Place> {
    match fs::metadata(rt, path) {
        Ok(metadata) => standing_place(alloc, rt, path, &metadata),
        Err(error) if error.kind() == ErrorKind::NotFound => free_place(alloc, rt, path),
        Err(error) if error.kind() == ErrorKind::NotADirectory => Ok(Place::Nowhere),
        Err(error) => Err(error),
    }
}
