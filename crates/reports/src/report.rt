//! The report on a checked file.

use conformance::finding::Finding;
use schema_constraints::finding::RuleFinding;
use schema_unchecked_declarations::list::Unchecked;

/// The report on a file that is checked against a schema.
#[derive(Drop)]
pub struct Report<'s> {
    /// The parts of the schema that aren't checked, in the order of its text.
    pub unchecked: Vec<Unchecked>,
    /// The faults of the file's instances one by one, in order.
    pub findings: Vec<Finding>,
    /// The rules that instances break, in order; empty if `findings` isn't.
    pub rule_findings: Vec<RuleFinding<'s>>,
    /// The number of instances in the file.
    pub instances: u64,
    /// The number of pairs of an instance and a domain rule whose outcome is unknown, at most 2^64
    /// - 1; 0 if `findings` isn't empty.
    pub unknown: u64,
}
