//! The summary of a merge.

use reports::report::Report;

/// The summary of a merge.
#[derive(Drop)]
pub struct Summary<'s> {
    /// The report on the file that was read, which has no findings.
    pub report: Report<'s>,
    /// The number of instances in the smaller file.
    pub kept: u64,
    /// The last round of the table that decides the merge.
    pub rounds: u32,
}
