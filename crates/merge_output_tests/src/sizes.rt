//! Files of 2,000 instances.

use crate::members::{Classes, sent};
use std::alloc::{AllocError, Global};
use std::hash::RandomState;
use value_equality::table::Origin;

/// The number of instances.
const SIZE: u32 = 2000;

const FRONT: &str = "ISO-10303-21;\n\
    HEADER;\n\
    FILE_DESCRIPTION((''),'2;1');\n\
    FILE_NAME('','',(''),(''),'','','');\n\
    FILE_SCHEMA(('GEO'));\n\
    ENDSEC;\n\
    DATA;\n";

const END: &str = "ENDSEC;\n\
    END-ISO-10303-21;\n";

/// The smaller file if all instances are equal.
const SMALLER: &'static [u8] =
    b"ISO-10303-21;\nHEADER;\nFILE_DESCRIPTION((''),'2;1');\nFILE_NAME('','',(''),(''),'','','');\nFILE_SCHEMA(('GEO'));\nENDSEC;\nDATA;\n#1=NODE(#1,0.);\nENDSEC;\nEND-ISO-10303-21;\n";

/// All instances in one class.
const EQUAL: Classes = Classes {
    rounds: 0,
    origins: &[Origin::Start],
    each: &[],
};

/// No classes at all.
const APART: Classes = Classes {
    rounds: 0,
    origins: &[],
    each: &[],
};

/// Adds an instance, which refers to the next one, the last one to the first.
fn push_instance(alloc: Global, text: &mut String, i: u32) -> Result<(), AllocError> {
    let name = i % SIZE + 1;
    let next = name % SIZE + 1;
    let line = format!(in alloc; "#{name}=NODE(#{next},0.);\n")?;
    text.push_str(&line)
}

/// Returns the text of a ring of instances.
fn ring(alloc: Global) -> Result<String, AllocError> {
    let mut text = String::new(alloc);
    text.push_str(FRONT)?;
    for i in 0..SIZE {
        push_instance(alloc, &mut text, i)?;
    }
    text.push_str(END)?;
    Ok(text)
}

/// Whether merging a file by these classes writes this.
fn is_written(
    alloc: Global,
    keys: RandomState,
    file: &[u8],
    classes: Classes,
    wanted: &[u8],
) -> bool {
    match sent(alloc, keys, file, classes, usize::MAX, Ok(())) {
        Some(bytes) => bytes.as_slice() == wanted,
        None => false,
    }
}

/// Whether one instance of a ring is written if all are in one class, and the ring itself if there are
/// no classes.
pub(crate) fn are_rewritten(alloc: Global, keys: RandomState) -> bool {
    match ring(alloc) {
        Ok(text) => {
            is_written(alloc, keys, text.as_bytes(), EQUAL, SMALLER)
                && is_written(alloc, keys, text.as_bytes(), APART, text.as_bytes())
        }
        Err(_) => false,
    }
}
