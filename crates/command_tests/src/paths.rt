//! Paths that lead nowhere, and paths with a file.

use devices::device::{Failed, Sink, Source};
use file_store::clash::{Clash, Paths, clash_of};
use file_store::folder::Folder;
use files::store::Store;
use std::alloc::Global;
use std::fs::File;
use std::rt::Files;
use std::test::Fail;
use std::{fs, io};

const NOWHERE: &str = "no such folder/file";

// Whether a file that doesn't exist fails at its first read, and not before.
fn fails_at_a_read<R: Files<File = File>>(rt: &R, alloc: Global) -> bool {
    let mut store = Folder::new(alloc, rt);
    let mut reader = store.reader(NOWHERE);
    let early = Source::failed(&reader);
    let read = reader.take(&mut [0; 4]);
    !early && read == Err(Failed) && Source::failed(&reader)
}

// Whether a file that can't be created fails at its first write, and not before.
fn fails_at_a_write<R: Files<File = File>>(rt: &R, alloc: Global) -> bool {
    let mut store = Folder::new(alloc, rt);
    let mut writer = store.writer(NOWHERE);
    let early = Sink::failed(&writer);
    let written = writer.put(b"text");
    let late = Sink::failed(&writer);
    store.keep(NOWHERE, writer);
    !early && written == Err(Failed) && late
}

#[test]
fn a_path_that_leads_nowhere_fails_at_its_use(rt: HostRuntime) {
    assert!(rt; fails_at_a_read(&rt, rt.alloc()));
    assert!(rt; fails_at_a_write(&rt, rt.alloc()));
}

// The path of a file that is there during a test.
const STANDING: &str = "a-standing-file.stp";

// Whether the file at `STANDING` has this content.
fn holds<R: Files<File = File>>(rt: &R, alloc: Global, text: &str) -> bool {
    let Ok(file) = fs::open(rt, STANDING) else {
        return false;
    };
    match io::read_to_string(alloc, file) {
        Ok(held) => held.as_str() == text,
        Err(_) => false,
    }
}

// Returns a store in which `text` was written to `STANDING`, if the file there still has its old
// content.
fn written<'p, R: Files<File = File>>(
    rt: &'p R,
    alloc: Global,
    text: &str,
) -> Option<Folder<'p, R>> {
    let mut store = Folder::new(alloc, rt);
    let mut writer = store.writer(STANDING);
    let put = writer.put(text.as_bytes());
    store.keep(STANDING, writer);
    if put == Ok(text.len()) && holds(rt, alloc, "old") {
        Some(store)
    } else {
        None
    }
}

// Whether the old file stays if a run is abandoned.
fn stays<R: Files<File = File>>(rt: &R, alloc: Global) -> bool {
    let Some(store) = written(rt, alloc, "new") else {
        return false;
    };
    store.abandon();
    holds(rt, alloc, "old")
}

// Whether the old file is replaced once a run is finished.
fn is_replaced<R: Files<File = File>>(rt: &R, alloc: Global) -> bool {
    let Some(store) = written(rt, alloc, "new") else {
        return false;
    };
    store.finish().is_ok() && holds(rt, alloc, "new")
}

#[test]
fn a_file_that_stands_is_replaced_as_a_whole(rt: HostRuntime) -> Result<(), Fail> {
    fs::write(&rt, STANDING, "old")?;
    let stays = stays(&rt, rt.alloc());
    let is_replaced = is_replaced(&rt, rt.alloc());
    fs::remove_file(&rt, STANDING)?;
    assert!(rt; stays);
    assert!(rt; is_replaced);
    Ok(())
}

// The path of another file that is there during a test.
const TOLD: &str = "a-told-file.stp";

// Paths of OUT and CERT, and whether both lead to one file. There is a file at `TOLD`, and none at
// the other paths.
const PAIRS: [(&str, &str, bool); 7] = [
    (TOLD, "./a-told-file.stp", true),
    (TOLD, "no-file.stp", false),
    ("no-file.stp", ".//no-file.stp", true),
    ("no-file.stp", "another-file.stp", false),
    ("./no-file.stp", "././no-file.stp", true),
    (NOWHERE, "./no such folder/file", false),
    ("/dev/null", "/dev/./null", false),
];

// Whether OUT and CERT of a run lead to one file, if nothing else clashes.
fn are_one<R: Files>(rt: &R, alloc: Global, output: &str, certificate: &str) -> Option<bool> {
    let paths = Paths {
        schema: "/dev/null",
        file: "/dev/null",
        output,
        certificate,
    };
    match clash_of(alloc, rt, paths) {
        Ok(None) => Some(false),
        Ok(Some(Clash::OutputIsCertificate)) => Some(true),
        _ => None,
    }
}

// Whether each pair has the expected answer.
fn are_told<R: Files>(rt: &R, alloc: Global) -> bool {
    for (output, certificate, wanted) in PAIRS {
        if are_one(rt, alloc, output, certificate) != Some(wanted) {
            return false;
        }
    }
    true
}

#[test]
fn paths_that_lead_to_one_file_are_told(rt: HostRuntime) -> Result<(), Fail> {
    fs::write(&rt, TOLD, "text")?;
    let are_told = are_told(&rt, rt.alloc());
    fs::remove_file(&rt, TOLD)?;
    assert!(rt; are_told);
    Ok(())
}
