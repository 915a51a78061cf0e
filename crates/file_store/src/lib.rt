//! The file system as a store of files. An old file at the path of one that is written stays as it is until
//! all of the new one is written. Files are told apart by device and inode.
#![tactic(auto)]

pub mod clash;
pub mod folder;
mod links;
pub mod node;
mod paths;
pub mod place;
pub mod read_files;
mod replacement;
pub mod standard_streams;
pub mod written_files;
