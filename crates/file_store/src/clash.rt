//! Files of one run that are the same.

ghost use Rattle.std.specs.Prelude.{◌↔◌, ◌⊎◌, IfNone, IfSome, IsTrue};
ghost use Rattle.file_store.specs.steps.Places.{
  AreApart,
  AreNoStreams,
  IsFileClash,
  IsSameEntry,
  IsSameName,
  IsSamePlace,
  IsStream,
  IsStreamClash,
};

use crate::node::Node;
use crate::place::{Entry, Place, place_of};
use crate::standard_streams::Streams;
use files::fault::{FileFault, Role};
use std::alloc::Global;
use std::io::ErrorKind;
use std::rt::Files;

/// The paths of a run that writes two files.
#[derive(Clone, Copy)]
pub struct Paths<'p> {
    pub schema: &'p str,
    pub file: &'p str,
    pub output: &'p str,
    pub certificate: &'p str,
}

/// Two files of a run that are the same, although the run would lose one of them.
#[derive(Clone, Copy, Debug, PartialEq, Eq)]
pub enum Clash {
    OutputIsCertificate,
    SchemaIsOutput,
    SchemaIsCertificate,
    FileIsCertificate,
    OutputIsStandardOutput,
    OutputIsStandardError,
    CertificateIsStandardOutput,
    CertificateIsStandardError,
}

impl Clash {
    /// Returns the line that reports it.
    pub fn line(self) -> &'static str {
        match self {
            Clash::OutputIsCertificate => "error: OUT and CERT are the same file\n",
            Clash::SchemaIsOutput => "error: SCHEMA and OUT are the same file\n",
            Clash::SchemaIsCertificate => "error: SCHEMA and CERT are the same file\n",
            Clash::FileIsCertificate => "error: FILE and CERT are the same file\n",
            Clash::OutputIsStandardOutput => "error: OUT and standard output are the same file\n",
            Clash::OutputIsStandardError => "error: OUT and standard error are the same file\n",
            Clash::CertificateIsStandardOutput => {
                "error: CERT and standard output are the same file\n"
            }
            Clash::CertificateIsStandardError =>
                "error: CERT and standard error are the same file\n",
        }
    }
}

/// Where the paths of a run lead.
#[derive(Drop)]
pub(crate) struct Places {
    schema: Place,
    file: Place,
    output: Place,
    certificate: Place,
}

/// Whether two names are the same name in one folder.
fn is_same_entry(one: &Entry, other: &Entry) -> bool
    ensures { IsTrue result ↔ IsSameEntry one.now other.now }
{
    one.folder == other.folder && one.name.as_str() == other.name.as_str()
}

/// Whether two files that have the same device and inode are reached under one name. A file without
/// an entry has one name only.
fn is_same_name(one: &Option<Entry>, other: &Option<Entry>) -> bool
    ensures { IsTrue result ↔ IsSameName one.now other.now }
{
    match (one, other) {
        (Some(one), Some(other)) => is_same_entry(one, other),
        _ => true,
    }
}

/// Whether writing to one place would change what is at the other. Two names of one file (hard
/// links) are told apart, since a written file replaces only one of them; so are two paths of one
/// pipe or device.
fn is_same_place(one: &Place, other: &Place) -> bool
    ensures { IsTrue result ↔ IsSamePlace one.now other.now }
{
    match (one, other) {
        (
            Place::File { node: one, entry },
            Place::File {
                node: other,
                entry: other_entry,
            },
        ) => one == other && is_same_name(entry, other_entry),
        (Place::Free(one), Place::Free(other)) => is_same_entry(one, other),
        _ => false,
    }
}

/// Whether a place is the regular file to which a stream goes.
fn is_stream(place: &Place, stream: Option<Node>) -> bool
    ensures { IsTrue result ↔ IsStream place.now stream }
{
    match (place, stream) {
        (Place::File { node, .. }, Some(stream)) => *node == stream,
        _ => false,
    }
}

/// Returns the first clash of files, if any.
fn file_clash(places: &Places) -> Option<Clash>
    ensures some { IfSome result (λ clash. IsFileClash places.now clash) }
    ensures none { IfNone result (AreApart places.now) }
{
    if is_same_place(&places.output, &places.certificate) {
        return Some(Clash::OutputIsCertificate);
    }
    if is_same_place(&places.schema, &places.output) {
        return Some(Clash::SchemaIsOutput);
    }
    if is_same_place(&places.schema, &places.certificate) {
        return Some(Clash::SchemaIsCertificate);
    }
    if is_same_place(&places.file, &places.certificate) {
        return Some(Clash::FileIsCertificate);
    }
    None
}

/// Returns the first clash of a written file with a standard stream, if any.
fn stream_clash(places: &Places, streams: Streams) -> Option<Clash>
    ensures some { IfSome result (λ clash. IsStreamClash places.now streams clash) }
    ensures none { IfNone result (AreNoStreams places.now streams) }
{
    if is_stream(&places.output, streams.output) {
        return Some(Clash::OutputIsStandardOutput);
    }
    if is_stream(&places.output, streams.error) {
        return Some(Clash::OutputIsStandardError);
    }
    if is_stream(&places.certificate, streams.output) {
        return Some(Clash::CertificateIsStandardOutput);
    }
    if is_stream(&places.certificate, streams.error) {
        return Some(Clash::CertificateIsStandardError);
    }
    None
}

/// Returns the first clash, if any.
fn clash_among(places: &Places, streams: Streams) -> Option<Clash>
    ensures some { IfSome result (λ clash. IsFileClash places.now clash
        ⊎ IsStreamClash places.now streams clash) }
    ensures none { IfNone result (AreApart places.now × AreNoStreams places.now streams) }
{
    match file_clash(places) {
        Some(clash) => Some(clash),
        None => stream_clash(places, streams),
    }
}

/// Returns where the path of this role leads. Errors carry the role.
fn place_as<R: Files>(alloc: Global, rt: &R, role: Role, path: &str) -> Result<Place, FileFault> {
    match place_of(alloc, rt, path) {
        Ok(place) => Ok(place),
        Err(error) if error.kind() == ErrorKind::OutOfMemory => Err(FileFault::Memory),
        Err(_) => Err(FileFault::Device { role, written: 0 }),
    }
}

/// Returns where the paths of a run lead.
fn places_of<R: Files>(alloc: Global, rt: &R, paths: Paths<'_>) -> Result<Places, FileFault> {
    let schema = place_as(alloc, rt, Role::Schema, paths.schema)?;
    let file = place_as(alloc, rt, Role::File, paths.file)?;
    let output = place_as(alloc, rt, Role::Output, paths.output)?;
    let certificate = place_as(alloc, rt, Role::Certificate, paths.certificate)?;
    Ok(Places {
        schema,
        file,
        output,
        certificate,
    })
}

/// Returns the first clash of the files of a run, if any. OUT may be FILE. Links are followed to
/// their last name, whether or not a file is there, and files are told by device and inode.
///
/// # Errors
/// - `Device` with the role of a path that can't be looked at, or with the role of the output if
///   the system doesn't report where standard output and standard error go;
/// - `Memory` if memory runs out.
pub fn clash_of<R: Files>(
    alloc: Global,
    rt: &R,
    paths: Paths<'_>,
) -> Result<Option<Clash>, FileFault> {
    let places = places_of(alloc, rt, paths)?;
    match Streams::of(rt) {
        Ok(streams) => Ok(clash_among(&places, streams)),
        Err(_) => Err(FileFault::Device {
            role: Role::Output,
            written: 0,
        }),
    }
}
