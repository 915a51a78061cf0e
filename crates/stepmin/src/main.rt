//! `stepmin` reads STEP files (ISO 10303-21).
//!
//! - `stepmin plain FILE` writes the normal text of a file.
//! - `stepmin check SCHEMA FILE` reports where a file breaks its schema.
//! - `stepmin shrink SCHEMA FILE OUT CERT` writes a file with its value-equal instances merged, and a
//!   certificate of the merge.
//! - `stepmin verify SCHEMA FILE OUT CERT` reports whether a certificate proves an output.
//! - `stepmin presets` lists the presets of `--merge`.
#![tactic(auto)]

use command_line::command_words::{Refusal, Request, read_words, unread_words};
use command_line::merge_words::ShrinkRequest;
use commands::command::{refuse, refuse_to_read, run_command};
use commands::ending::report;
use commands::presets::tell_presets;
use devices::counted::Counted;
use devices::device::Sink;
use file_store::clash::{Clash, Paths, clash_of};
use file_store::folder::Folder;
use file_store::standard_streams::hold_closed_streams;
use files::fault::{FileFault, print_line};
use resources::Resources;
use std::alloc::Global;
use std::env::Env;
use std::fs::File;
use std::hash::RandomState;
use std::io;
use std::process::ExitCode;
use std::random::RandomSource;
use std::rt::Files;

/// The exit status if everything is done.
const DONE: u8 = 0;

/// The exit status if a device fails.
const DEVICE: u8 = 4;

// Returns the arguments of the command line. The error is `OutOfMemory` if memory runs out.
fn words<R: Env + AllocGlobal>(rt: &R) -> io::Result<Vec<String>> {
    let words = std::env::args(rt)?.collect(rt.alloc())?;
    Ok(words)
}

// Puts the written files of a run in place if its status is 0, otherwise removes them. A file that
// can't be put in place is a device that fails.
fn settled<R: Files<File = File>, E: Sink>(store: Folder<'_, R>, status: u8, err: &mut E) -> u8 {
    if status != DONE {
        store.abandon();
        return status;
    }
    match store.finish() {
        Ok(()) => DONE,
        Err(fault) => {
            let _printed = print_line(err, fault);
            DEVICE
        }
    }
}

// Returns the first clash of the files of a request of `shrink`, if any.
fn first_clash<R: Files>(
    alloc: Global,
    rt: &R,
    asked: &Request<'_>,
) -> Result<Option<Clash>, FileFault> {
    let Request::Shrink(asked) = *asked else {
        return Ok(None);
    };
    let ShrinkRequest {
        schema,
        file,
        output,
        certificate,
        ..
    } = asked;
    let paths = Paths {
        schema,
        file,
        output,
        certificate,
    };
    clash_of(alloc, rt, paths)
}

// Returns the refusal of arguments whose files clash.
fn clashing(alloc: Global, clash: Clash) -> Refusal {
    match String::from_str(alloc, clash.line()) {
        Ok(text) => Refusal::Usage(text),
        Err(_) => Refusal::Memory,
    }
}

// Runs the command line, and returns the exit status. The keys to hash names with are requested
// only if a file is to be read. No file is opened under the number of a standard stream that is
// closed.
fn run<R: AllocGlobal + RandomSource + Files<File = File>, O: Sink, E: Sink>(
    rt: &R,
    words: &[String],
    out: &mut O,
    err: &mut E,
) -> u8 {
    let asked = match read_words(rt.alloc(), words) {
        Ok(Request::Presets) => return tell_presets(out),
        Ok(asked) => asked,
        Err(refusal) => return refuse(refusal, out, err),
    };
    if hold_closed_streams(rt).is_err() {
        return refuse_to_read(err);
    }
    match first_clash(rt.alloc(), rt, &asked) {
        Ok(None) => {}
        Ok(Some(clash)) => return refuse(clashing(rt.alloc(), clash), out, err),
        Err(fault) => return report(fault, err),
    }
    let Ok(keys) = RandomState::new(rt) else {
        return refuse_to_read(err);
    };
    let mut store = Folder::new(rt.alloc(), rt);
    let resources = Resources {
        alloc: rt.alloc(),
        keys,
    };
    let status = run_command(resources, words, &mut store, out, err);
    settled(store, status, err)
}

fn main(rt: HostRuntime) -> ExitCode {
    let mut out = Counted::new(io::writer(&rt));
    let mut err = Counted::new(rt.stderr());
    let status = match words(&rt) {
        Ok(words) => run(&rt, &words, &mut out, &mut err),
        Err(error) => refuse(unread_words(rt.alloc(), &error), &mut out, &mut err),
    };
    ExitCode::from(status)
}
