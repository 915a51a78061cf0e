//! The report on domain rules.

ghost use Rattle.std.specs.Prelude.{◌≡◌, []};

use schema_constraints::finding::RuleFinding;
use std::alloc::Global;

/// The outcomes of the domain rules of a schema at the instances of a population.
#[derive(Drop)]
pub struct RuleReport<'s> {
    /// The findings of instances at which a rule is FALSE, in the order of the file and, for each
    /// instance, in the order of the rules in the text.
    pub findings: Vec<RuleFinding<'s>>,
    /// The number of pairs of an instance and a rule whose outcome is UNKNOWN; 2^64 - 1 if there
    /// are more.
    pub unknown: u64,
}

/// Returns a report without findings.
pub fn empty_report<'s>(alloc: Global) -> RuleReport<'s>
    ensures findings { result.findings.items ≡ [] }
    ensures unknown { result.unknown ≡ 0 }
{
    RuleReport {
        findings: Vec::new(alloc),
        unknown: 0,
    }
}
