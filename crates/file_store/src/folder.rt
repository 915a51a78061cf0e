//! The file system as a store.

use crate::node::Node;
use crate::paths::{PathMaker, PathOpener, remove, sync, take_place};
use crate::read_files::Opening;
use crate::written_files::Making;
use devices::counted::Counted;
use devices::device::WriteFault;
use files::fault::{FileFault, Role};
use files::store::Store;
use std::alloc::Global;
use std::fs::File;
use std::rt::Files;

/// The file system as a store.
#[derive(Drop)]
pub struct Folder<'p, R: Files<File = File>> {
    alloc: Global,
    rt: &'p R,
    /// The writer that was taken back first.
    output: Option<Making<PathMaker<'p, R>>>,
    /// The writer that was taken back second.
    certificate: Option<Making<PathMaker<'p, R>>>,
}

/// Syncs a written file before it replaces the old one, if there is one. Errors carry the file's
/// role.
fn hold<R: Files<File = File>>(
    making: &Option<Making<PathMaker<'_, R>>>,
    role: Role,
) -> Result<(), FileFault> {
    let Some(making) = making else {
        return Ok(());
    };
    match sync(making) {
        Ok(()) => Ok(()),
        Err(fault) => Err(FileFault::of_write(role, fault)),
    }
}

/// Whether the certificate is to replace the written output, as in a folder that doesn't tell
/// capital letters from small ones.
fn is_output_replaced<R: Files<File = File>>(
    output: &Making<PathMaker<'_, R>>,
    certificate: &Making<PathMaker<'_, R>>,
) -> bool {
    let (Some(file), Some(replacement)) = (&output.file, &certificate.maker.replacement) else {
        return false;
    };
    match file.metadata() {
        Ok(metadata) => Node::of(&metadata) == replacement.node,
        Err(_) => true,
    }
}

/// Fails with a fault of the certificate if that is to replace the written output, or if the system
/// doesn't report whether it is.
fn keep_apart<R: Files<File = File>>(
    output: &Option<Making<PathMaker<'_, R>>>,
    certificate: &Option<Making<PathMaker<'_, R>>>,
) -> Result<(), FileFault> {
    match (output, certificate) {
        (Some(output), Some(certificate)) if is_output_replaced(output, certificate) => {
            let written = certificate.written;
            Err(FileFault::of_write(Role::Certificate, WriteFault { written }))
        }
        _ => Ok(()),
    }
}

/// Syncs both written files, the output first, and sees that the certificate doesn't replace the
/// output.
fn hold_both<R: Files<File = File>>(
    output: &Option<Making<PathMaker<'_, R>>>,
    certificate: &Option<Making<PathMaker<'_, R>>>,
) -> Result<(), FileFault> {
    hold(output, Role::Output)?;
    hold(certificate, Role::Certificate)?;
    keep_apart(output, certificate)
}

/// Replaces an old file with the written one, if there is one. Errors carry the file's role.
fn replace<R: Files<File = File>>(
    making: Option<Making<PathMaker<'_, R>>>,
    role: Role,
) -> Result<(), FileFault> {
    let Some(making) = making else {
        return Ok(());
    };
    match take_place(making) {
        Ok(()) => Ok(()),
        Err(fault) => Err(FileFault::of_write(role, fault)),
    }
}

/// Removes a written file that was to replace an old one, if there is one.
fn discard<R: Files<File = File>>(making: Option<Making<PathMaker<'_, R>>>) {
    if let Some(making) = making {
        remove(making);
    }
}

impl<'p, R: Files<File = File>> Folder<'p, R> {
    /// Returns the store of the files that this runtime reaches. A file that is to replace another
    /// one, or to which a link leads, can't be created if memory runs out for its name.
    pub fn new(alloc: Global, rt: &'p R) -> Folder<'p, R> {
        Folder {
            alloc,
            rt,
            output: None,
            certificate: None,
        }
    }

    /// Replaces the old files at the written paths, first that of the output, which was taken back
    /// first, then that of the certificate. A file whose path held no regular file is in place
    /// already.
    ///
    /// # Errors
    /// - `Device` if a written file can't be synced; both old files stay.
    /// - `Device` of the certificate if it would replace the output; the old files stay.
    /// - `Device` of the output if it can't be renamed; both old files stay.
    /// - `Device` of the certificate if it can't be renamed; the old certificate stays.
    pub fn finish(self) -> Result<(), FileFault> {
        let Folder {
            output,
            certificate,
            ..
        } = self;
        if let Err(fault) = hold_both(&output, &certificate) {
            discard(output);
            discard(certificate);
            return Err(fault);
        }
        if let Err(fault) = replace(output, Role::Output) {
            discard(certificate);
            return Err(fault);
        }
        replace(certificate, Role::Certificate)
    }

    /// Removes the written files that were to replace old ones, which stay.
    pub fn abandon(self) {
        let Folder {
            output,
            certificate,
            ..
        } = self;
        discard(output);
        discard(certificate);
    }
}

impl<'p, R: Files<File = File>> Store<'p> for Folder<'p, R> {
    type Reader = Counted<Opening<PathOpener<'p, R>>>;

    type Writer = Counted<Making<PathMaker<'p, R>>>;

    fn reader(&mut self, path: &'p str) -> Counted<Opening<PathOpener<'p, R>>> {
        Counted::new(Opening::new(PathOpener { rt: self.rt, path }))
    }

    fn writer(&mut self, path: &'p str) -> Counted<Making<PathMaker<'p, R>>> {
        Counted::new(Making::new(PathMaker::new(self.alloc, self.rt, path)))
    }

    // `finish` puts the written file in place, once everything is done.
    fn keep(&mut self, _path: &'p str, writer: Counted<Making<PathMaker<'p, R>>>) {
        let making = writer.into_inner();
        if self.output.is_none() {
            self.output = Some(making);
        } else {
            self.certificate = Some(making);
        }
    }
}
