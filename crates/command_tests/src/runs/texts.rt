//! A large file in the file system, and its normal text.

use super::{FILE, add_words, run_in};
use devices::device::Sink;
use file_store::folder::Folder;
use files::store::Store;
use resources::Resources;
use std::alloc::Global;
use std::fs;
use std::fs::File;
use std::hash::RandomState;
use std::rt::Files;
use std::test::Fail;

// The path of the large file during the test.
const LARGE: &str = "a-large-file.stp";

// Adds many points, each with `behind` after its name.
fn add_points(text: &mut String, behind: &str) -> bool {
    for name in 1..40000u32 {
        if write!(text, "#{name}{behind}\n").is_err() {
            return false;
        }
    }
    true
}

// Returns the file with two further records in its header and these points.
fn with_points(alloc: Global, points: &str) -> Option<String> {
    match FILE.replace(alloc, "'GEO'));\n", "'GEO'));\nA(1);\nB('x');\n") {
        Ok(head) => head.as_str().replace(alloc, "DATA;\n", points).ok(),
        Err(_) => None,
    }
}

// Returns a file of more than one MiB with two further records in its header. Each point has
// `behind` after its name.
fn large_file(alloc: Global, behind: &str) -> Option<String> {
    let Ok(mut points) = String::from_str(alloc, "DATA;\n") else {
        return None;
    };
    if !add_points(&mut points, behind) {
        return None;
    }
    with_points(alloc, points.as_str())
}

// Whether the text can be written to the file system.
fn is_laid<R: Files<File = File>>(rt: &R, alloc: Global, text: &str) -> bool {
    let mut folder = Folder::new(alloc, rt);
    let mut writer = folder.writer(LARGE);
    let put = writer.put(text.as_bytes());
    folder.keep(LARGE, writer);
    put == Ok(text.len()) && folder.finish().is_ok()
}

// Whether the file in the file system has this normal text.
fn is_normal_there<'x, R: Files<File = File>>(
    rt: &'x R,
    alloc: Global,
    keys: RandomState,
    words: &'x [String],
    text: &str,
) -> bool {
    let mut folder = Folder::new(alloc, rt);
    let run = run_in(
        Resources { alloc, keys },
        words,
        &mut folder,
        usize::MAX,
        usize::MAX,
    );
    run.comes_to(0, text.as_bytes(), b"")
}

// Returns what fails first for the large file and its normal text, if anything.
fn wrong_of<R: Files<File = File>>(
    rt: &R,
    alloc: Global,
    keys: RandomState,
    file: &str,
    text: &str,
) -> Option<&'static str> {
    let mut words = Vec::new(alloc);
    if !add_words(alloc, &mut words, &["stepmin", "plain", LARGE]) {
        return Some("the words");
    }
    if !is_laid(rt, alloc, file) {
        return Some("the file in the file system");
    }
    if !is_normal_there(rt, alloc, keys, &words, text) {
        return Some("its normal text");
    }
    None
}

fn wrong_of_file<R: Files<File = File>>(
    rt: &R,
    alloc: Global,
    keys: RandomState,
    file: &str,
) -> Option<&'static str> {
    if file.len() <= 1 << 20 {
        return Some("the length of the file");
    }
    match large_file(alloc, "=POINT((0.,1.));") {
        Some(text) => wrong_of(rt, alloc, keys, file, text.as_str()),
        None => Some("the text"),
    }
}

fn wrong_large<R: Files<File = File>>(
    rt: &R,
    alloc: Global,
    keys: RandomState,
) -> Option<&'static str> {
    match large_file(alloc, " = point ( ( 0., 1. ) ) ;") {
        Some(file) => wrong_of_file(rt, alloc, keys, file.as_str()),
        None => Some("the file"),
    }
}

#[test]
fn a_large_file_is_read_from_the_file_system(rt: HostRuntime) -> Result<(), Fail> {
    let keys = RandomState::new(&rt)?;
    let wrong = wrong_large(&rt, rt.alloc(), keys);
    let is_removed = fs::remove_file(&rt, LARGE).is_ok();
    assert_eq!(rt; wrong, None);
    assert!(rt; is_removed);
    Ok(())
}
