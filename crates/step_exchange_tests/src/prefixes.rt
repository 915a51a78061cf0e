//! The prefixes of a file.

use crate::rows::expect_none;
use std::alloc::Global;
use std::hash::RandomState;
use std::random::RandomSource;
use step_exchange::exchange::read_exchange;
use step_exchange::fault::TextFault;

const FILE: &str = "ISO-10303-21;\n\
    HEADER;\n\
    FILE_DESCRIPTION((''),'2;1');\n\
    FILE_NAME('','',(''),(''),'','','');\n\
    FILE_SCHEMA(('GEO'));\n\
    ENDSEC;\n\
    DATA;\n\
    #1=POINT((0.,1.));\n\
    #2=POINT((0.0,1.E0));\n\
    #3=PLACEMENT(#1,$);\n\
    #4=PLACEMENT(#2,$);\n\
    ENDSEC;\n\
    END-ISO-10303-21;\n";

// Whether a text is a whole file, or is refused at an offset within it or at its end.
fn is_right(alloc: Global, keys: RandomState, text: &[u8], is_whole: bool) -> bool {
    match read_exchange(alloc, keys, text) {
        Ok(_) => is_whole,
        Err(TextFault::Fault { place, .. }) => !is_whole && place <= text.len() as u64,
        Err(TextFault::Memory) => false,
    }
}

// Returns the length of the first prefix with another outcome, if any. Each prefix is refused,
// except the last two, which are whole files.
fn wrong_length(rt: &impl RandomSource, alloc: Global, file: &[u8]) -> Option<usize> {
    let Ok(keys) = RandomState::new(rt) else {
        return Some(file.len());
    };
    for length in 0..file.len() + 1 {
        if !is_right(alloc, keys, &file[..length], length + 1 >= file.len()) {
            return Some(length);
        }
    }
    None
}

#[test]
fn each_prefix_of_a_file_is_refused_within_it(rt: HostRuntime) {
    assert!(rt; FILE.len() == 232);
    expect_none(&rt, wrong_length(&rt, rt.alloc(), FILE.as_bytes()));
}
