//! Printing a report.

ghost use Rattle.std.specs.Prelude.{◌≡◌, false, flat_map, is_err};
ghost use Rattle.devices.specs.Emits.{Emits};
ghost use Rattle.devices.specs.steps.Prints.{Prints};
ghost use Rattle.reports.specs.Lines.{
  count_line,
  finding_line,
  report_text,
  rule_finding_line,
  spot_text,
  unchecked_line,
};

use crate::labels::{print_label, print_number};
use crate::report::Report;
use crate::words::{finding_name, part_name, reason_name, rule_finding_name};
use conformance::finding::{Finding, Spot};
use devices::device::{Sink, WriteFault};
use devices::printer::Printer;
use schema_constraints::finding::RuleFinding;
use schema_unchecked_declarations::list::Unchecked;

// Prints the line of an unchecked part.
fn print_unchecked<S: Sink>(printer: &mut Printer, out: &mut S, part: &Unchecked)
    ensures { Prints S.held S.has_failed out.old out.new printer.old printer.new
        (unchecked_line part.now) }
{
    printer.print(out, b"unchecked ");
    printer.print(out, part_name(part.kind).as_bytes());
    printer.print(out, b" ");
    printer.print(out, part.name.as_bytes());
    printer.print(out, b" ");
    printer.print(out, reason_name(part.reason).as_bytes());
    printer.print_byte(out, b'\n');
}

// Prints the instance of a finding and the number of its parameter (0 for the whole instance), if
// the finding is at an instance.
fn print_spot<S: Sink>(printer: &mut Printer, out: &mut S, instance: u64, spot: Spot)
    ensures { Prints S.held S.has_failed out.old out.new printer.old printer.new
        (spot_text instance spot) }
{
    if let Spot::Place(place) = spot {
        printer.print(out, b" #");
        print_number(printer, out, instance);
        printer.print(out, b" ");
        print_number(printer, out, place);
    }
}

// Prints the line of a finding.
pub(crate) fn print_finding<S: Sink>(printer: &mut Printer, out: &mut S, finding: &Finding)
    ensures { Prints S.held S.has_failed out.old out.new printer.old printer.new
        (finding_line finding.now) }
{
    printer.print(out, finding_name(finding.kind).as_bytes());
    print_spot(printer, out, finding.instance, finding.spot);
    printer.print_byte(out, b'\n');
}

// Prints the line of a rule that an instance breaks.
pub(crate) fn print_rule_finding<S: Sink>(
    printer: &mut Printer,
    out: &mut S,
    finding: &RuleFinding<'_>,
)
    ensures { Prints S.held S.has_failed out.old out.new printer.old printer.new
        (rule_finding_line finding.now) }
{
    printer.print(out, rule_finding_name(finding.kind).as_bytes());
    printer.print(out, b" #");
    print_number(printer, out, finding.instance);
    printer.print(out, b" ");
    print_label(printer, out, finding.rule);
    printer.print_byte(out, b'\n');
}

// Prints the line of a count: `word`, then the number.
pub(crate) fn print_count<S: Sink>(printer: &mut Printer, out: &mut S, word: &[u8], number: u64)
    ensures { Prints S.held S.has_failed out.old out.new printer.old printer.new
        (count_line word.now number) }
{
    printer.print(out, word);
    print_number(printer, out, number);
    printer.print_byte(out, b'\n');
}

// Prints the lines of the unchecked parts.
pub(crate) fn print_parts<S: Sink>(printer: &mut Printer, out: &mut S, parts: &[Unchecked])
    ensures { Prints S.held S.has_failed out.old out.new printer.old printer.new
        (flat_map unchecked_line parts.now) }
{
    for part in parts {
        print_unchecked(printer, out, part);
    }
}

// Prints the lines of the findings.
fn print_findings<S: Sink>(printer: &mut Printer, out: &mut S, findings: &[Finding])
    ensures { Prints S.held S.has_failed out.old out.new printer.old printer.new
        (flat_map finding_line findings.now) }
{
    for finding in findings {
        print_finding(printer, out, finding);
    }
}

// Prints the lines of the rules that instances break.
fn print_rule_findings<S: Sink>(printer: &mut Printer, out: &mut S, findings: &[RuleFinding<'_>])
    ensures { Prints S.held S.has_failed out.old out.new printer.old printer.new
        (flat_map rule_finding_line findings.now) }
{
    for finding in findings {
        print_rule_finding(printer, out, finding);
    }
}

// Prints all lines of a report.
pub(crate) fn print_lines<S: Sink>(printer: &mut Printer, out: &mut S, report: &Report<'_>)
    ensures { Prints S.held S.has_failed out.old out.new printer.old printer.new
        (report_text report.now) }
{
    let findings = report.findings.as_slice();
    let rule_findings = report.rule_findings.as_slice();
    let count = findings.len() + rule_findings.len();
    print_parts(printer, out, &report.unchecked);
    print_findings(printer, out, findings);
    print_rule_findings(printer, out, rule_findings);
    print_count(printer, out, b"instances ", report.instances);
    print_count(printer, out, b"unknown ", report.unknown);
    print_count(printer, out, b"findings ", count as u64);
}

/// Prints a report, a line for each item:
///
/// - the parts of the schema that aren't checked;
/// - the findings;
/// - the rules that instances break;
/// - the counts `instances`, `unknown` and `findings`.
///
/// # Errors
/// - `WriteFault` if the sink fails; a prefix of the text was written.
pub fn print_report<S: Sink>(out: &mut S, report: &Report<'_>) -> Result<(), WriteFault>
    ensures emits { Emits (S.held out.old) (S.held out.new) (report_text report.now) result }
    ensures failed { S.has_failed out.old ≡ false → S.has_failed out.new ≡ is_err result }
{
    let mut printer = Printer::new();
    print_lines(&mut printer, out, report);
    printer.finish(out)
}
