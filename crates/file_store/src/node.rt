//! Files as the system tells them apart.

use std::fs::Metadata;
use std::os::unix::fs::MetadataExt;

/// The device and the inode of a file. All names of one file have the same.
#[derive(Clone, Copy, Debug, PartialEq, Eq)]
pub struct Node {
    pub device: u64,
    pub inode: u64,
}

impl Node {
    /// Returns the device and the inode that the system reports.
    pub(crate) fn of(metadata: &Metadata) -> Node {
        Node {
            device: metadata.dev(),
            inode: metadata.ino(),
        }
    }
}
