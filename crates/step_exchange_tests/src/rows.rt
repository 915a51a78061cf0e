//! How a test fails.

use std::process::Abort;

/// Fails a test at the wrong row, if any.
pub(crate) fn expect_none(rt: &impl Abort, wrong: Option<usize>) {
    if let Some(row) = wrong {
        panic!(rt; "row {row} is wrong");
    }
}
