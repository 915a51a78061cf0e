//! The fixed texts of a report's lines.

ghost use Rattle.std.specs.Prelude.{◌≡◌};
ghost use Rattle.reports.specs.Lines.{finding_text, part_text, reason_text, rule_finding_text};

use conformance::finding::FindingKind;
use schema_constraints::finding::RuleFindingKind;
use schema_semantics::unchecked::{PartKind, Reason};

/// Returns the keyword for a kind of unchecked part of a schema.
pub fn part_name(kind: PartKind) -> &'static str
    ensures { result.now ≡ part_text kind }
{
    match kind {
        PartKind::Function => "FUNCTION",
        PartKind::Procedure => "PROCEDURE",
        PartKind::Rule => "RULE",
        PartKind::Constant => "CONSTANT",
        PartKind::SubtypeConstraint => "SUBTYPE_CONSTRAINT",
        PartKind::Where => "WHERE",
        PartKind::Derive => "DERIVE",
        PartKind::Inverse => "INVERSE",
        PartKind::Unique => "UNIQUE",
        PartKind::Bound => "BOUND",
        PartKind::Width => "WIDTH",
        PartKind::Supertype => "SUPERTYPE",
        PartKind::Redeclared => "REDECLARED",
    }
}

/// Returns the text for the reason why a part isn't checked.
pub fn reason_name(reason: Reason) -> &'static str
    ensures { result.now ≡ reason_text reason }
{
    match reason {
        Reason::Skipped => "Skipped",
        Reason::Profile => "Profile",
        Reason::Name => "Name",
        Reason::Typeof => "Typeof",
        Reason::Kind => "Kind",
        Reason::Leads => "Leads",
    }
}

/// Returns the number and the name of a kind of finding.
pub fn finding_name(kind: FindingKind) -> &'static str
    ensures { result.now ≡ finding_text kind }
{
    match kind {
        FindingKind::UnknownEntity => "F1 UnknownEntity",
        FindingKind::AbstractInstance => "F2 AbstractInstance",
        FindingKind::MissingSupertype => "F3 MissingSupertype",
        FindingKind::OneOfBroken => "F4 OneOfBroken",
        FindingKind::ParameterCount => "F5 ParameterCount",
        FindingKind::WrongKind => "F6 WrongKind",
        FindingKind::MissingValue => "F7 MissingValue",
        FindingKind::MisplacedStar => "F8 MisplacedStar",
        FindingKind::DanglingReference => "F9 DanglingReference",
        FindingKind::WrongEntity => "F10 WrongEntity",
        FindingKind::UnknownElement => "F11 UnknownElement",
        FindingKind::OutOfBounds => "F12 OutOfBounds",
        FindingKind::TooWide => "F13 TooWide",
        FindingKind::NotDistinct => "F14 NotDistinct",
        FindingKind::NoSelectItem => "F15 NoSelectItem",
        FindingKind::SchemaName => "F19 SchemaName",
    }
}

/// Returns the number and the name of a kind of rule finding: a rule that an instance breaks.
pub fn rule_finding_name(kind: RuleFindingKind) -> &'static str
    ensures { result.now ≡ rule_finding_text kind }
{
    match kind {
        RuleFindingKind::WhereFalse => "F16 WhereFalse",
        RuleFindingKind::UniqueBroken => "F17 UniqueBroken",
        RuleFindingKind::InverseBound => "F18 InverseBound",
    }
}
