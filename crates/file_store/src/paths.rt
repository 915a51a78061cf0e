//! Files of the file system, by path.

use crate::links::follow_links;
use crate::read_files::{FileOpener, Unopened};
use crate::replacement::{Replacement, create_new};
use crate::written_files::{FileMaker, Making};
use devices::device::WriteFault;
use std::alloc::Global;
use std::fs::{File, OpenOptions};
use std::io::ErrorKind;
use std::rt::Files;
use std::{fs, io};

/// Opens the file at a path to read it.
#[derive(Drop)]
pub struct PathOpener<'p, R: Files> {
    pub(crate) rt: &'p R,
    pub(crate) path: &'p str,
}

impl<'p, R: Files> FileOpener for PathOpener<'p, R> {
    type File = R::File;

    fn open(self) -> Result<R::File, Unopened<PathOpener<'p, R>>> {
        match fs::open(self.rt, self.path) {
            Ok(file) => Ok(file),
            Err(error) => Err(Unopened {
                error,
                opener: self,
            }),
        }
    }
}

/// The number of times that a file is opened or created anew because another program creates or
/// replaces it meanwhile.
const ATTEMPTS: u32 = 100;

/// The permissions of a new file, less those that the process takes away (`umask`).
const PERMISSIONS: u32 = 0o666;

/// Creates the file at a path to write it. If a regular file is there, another one is created
/// beside it, which replaces it in the end. Anything else is opened and written in place.
#[derive(Drop)]
pub struct PathMaker<'p, R: Files<File = File>> {
    alloc: Global,
    rt: &'p R,
    path: &'p str,
    pub(crate) replacement: Option<Replacement>,
}

impl<'p, R: Files<File = File>> PathMaker<'p, R> {
    /// Returns the maker of the file at this path.
    pub(crate) fn new(alloc: Global, rt: &'p R, path: &'p str) -> PathMaker<'p, R> {
        PathMaker {
            alloc,
            rt,
            path,
            replacement: None,
        }
    }

    /// Creates the new file beside the one at the path, if that is a regular file; otherwise
    /// returns `standing`. Returns `None` if the path leads to another file by now.
    fn replacing(&mut self, standing: File) -> io::Result<Option<File>> {
        let metadata = standing.metadata()?;
        if !metadata.is_file() {
            return Ok(Some(standing));
        }
        match Replacement::make(self.alloc, self.rt, self.path, &metadata)? {
            Some((file, replacement)) => {
                self.replacement = Some(replacement);
                Ok(Some(file))
            }
            None => Ok(None),
        }
    }

    /// Creates the file at the path, or at the end of the links there. Returns `None` if there is a
    /// file by now.
    fn create(&self) -> io::Result<Option<File>> {
        let created = create_new(self.rt, self.path, PERMISSIONS)?;
        if created.is_some() {
            return Ok(created);
        }
        let reached = follow_links(self.alloc, self.rt, self.path)?;
        create_new(self.rt, reached.as_str(), PERMISSIONS)
    }

    /// Opens or creates the file that is written, once. Returns `None` if another program creates or
    /// replaces the file at the path meanwhile. Opens the old file first: a file that may not be
    /// written isn't replaced.
    fn attempt(&mut self) -> io::Result<Option<File>> {
        match OpenOptions::new().write(true).open(self.rt, self.path) {
            Ok(standing) => self.replacing(standing),
            Err(error) if error.kind() == ErrorKind::NotFound => self.create(),
            Err(error) => Err(error),
        }
    }
}

impl<'p, R: Files<File = File>> FileMaker for PathMaker<'p, R> {
    type File = File;

    /// Creates the file that is written, or opens it if it is written in place.
    ///
    /// # Errors
    /// - `AlreadyExists` if other programs create or replace the file a hundred times meanwhile;
    /// - another error if the file can't be opened or created, or if the new file can't have the
    ///   owner, the group and the permissions of the old one.
    fn make(&mut self) -> io::Result<File> {
        for _ in 0..ATTEMPTS {
            if let Some(file) = self.attempt()? {
                return Ok(file);
            }
        }
        Err(io::Error::from(ErrorKind::AlreadyExists))
    }
}

/// Syncs a file that is to replace an old one. Does nothing if there was no old one.
///
/// # Errors
/// - `WriteFault` if the file can't be synced.
pub(crate) fn sync<R: Files<File = File>>(
    making: &Making<PathMaker<'_, R>>,
) -> Result<(), WriteFault> {
    let (Some(_), Some(file)) = (&making.maker.replacement, &making.file) else {
        return Ok(());
    };
    match file.sync_all() {
        Ok(()) => Ok(()),
        Err(_) => Err(WriteFault {
            written: making.written,
        }),
    }
}

/// Replaces the old file at the path with the written one, which was synced before.
///
/// # Errors
/// - `WriteFault` if the file can't be renamed; the old one stays.
pub(crate) fn take_place<R: Files<File = File>>(
    making: Making<PathMaker<'_, R>>,
) -> Result<(), WriteFault> {
    let Making { maker, written, .. } = making;
    let PathMaker {
        rt,
        replacement,
        ..
    } = maker;
    let Some(replacement) = replacement else {
        return Ok(());
    };
    match replacement.take_place(rt) {
        Ok(()) => Ok(()),
        Err(_) => Err(WriteFault { written }),
    }
}

/// Removes a written file that was to replace an old one.
pub(crate) fn remove<R: Files<File = File>>(making: Making<PathMaker<'_, R>>) {
    let Making { maker, .. } = making;
    let PathMaker {
        rt,
        replacement,
        ..
    } = maker;
    if let Some(replacement) = replacement {
        replacement.remove(rt);
    }
}
