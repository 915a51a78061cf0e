//! Printing the report on a merge, and on an output that is proved.

ghost use Rattle.std.specs.Prelude.{◌≡◌, ◌++◌, false, flat_map, is_err};
ghost use Rattle.devices.specs.Emits.{Emits};
ghost use Rattle.devices.specs.steps.Prints.{Prints};
ghost use Rattle.reports.specs.Lines.{finding_line, rule_finding_line, unchecked_line};
ghost use Rattle.reports.specs.MergeLines.{
  merge_text,
  proof_text,
  role_line,
  role_prefix,
  strict_line,
};

use crate::labels::print_number;
use crate::report::Report;
use crate::report_lines::{
    print_count, print_finding, print_lines, print_parts, print_rule_finding,
};
use conformance::finding::Finding;
use devices::device::{Sink, WriteFault};
use devices::printer::Printer;
use schema_constraints::finding::RuleFinding;
use schema_unchecked_declarations::list::Unchecked;

/// Prints the report on a file that is merged: the lines of `report`, then `kept`, the number of
/// instances of the smaller file, and `rounds`, the last round of the table that decides the merge.
///
/// # Errors
/// - `WriteFault` if the sink fails; a prefix of the text was written.
pub fn print_merge<S: Sink>(
    out: &mut S,
    report: &Report<'_>,
    kept: u64,
    rounds: u32,
) -> Result<(), WriteFault>
    ensures emits { Emits (S.held out.old) (S.held out.new)
        (merge_text report.now kept rounds) result }
    ensures failed { S.has_failed out.old ≡ false → S.has_failed out.new ≡ is_err result }
{
    let mut printer = Printer::new();
    print_lines(&mut printer, out, report);
    print_count(&mut printer, out, b"kept ", kept);
    print_count(&mut printer, out, b"rounds ", rounds as u64);
    printer.finish(out)
}

/// Prints the lines of the parts of a schema that aren't checked.
///
/// # Errors
/// - `WriteFault` if the sink fails; a prefix of the text was written.
pub fn print_unchecked_parts<S: Sink>(out: &mut S, parts: &[Unchecked]) -> Result<(), WriteFault>
    ensures emits { Emits (S.held out.old) (S.held out.new)
        (flat_map unchecked_line parts.now) result }
    ensures failed { S.has_failed out.old ≡ false → S.has_failed out.new ≡ is_err result }
{
    let mut printer = Printer::new();
    print_parts(&mut printer, out, parts);
    printer.finish(out)
}

/// Prints that a strict choice refuses a schema of which `count` parts aren't checked.
///
/// # Errors
/// - `WriteFault` if the sink fails; a prefix of the line was written.
pub fn print_strict<S: Sink>(out: &mut S, count: u64) -> Result<(), WriteFault>
    ensures emits { Emits (S.held out.old) (S.held out.new) (strict_line count) result }
    ensures failed { S.has_failed out.old ≡ false → S.has_failed out.new ≡ is_err result }
{
    let mut printer = Printer::new();
    printer.print(out, b"strict: ");
    print_number(&mut printer, out, count);
    printer.print(out, b" unchecked");
    printer.print_byte(out, b'\n');
    printer.finish(out)
}

/// Prints that a certificate proves an output:
///
/// - `instances`, the number of instances of the file;
/// - `kept`, the number of instances of the output;
/// - `rounds`, the last round of the table that decides the merge;
/// - that the certificate holds.
///
/// # Errors
/// - `WriteFault` if the sink fails; a prefix of the text was written.
pub fn print_proof<S: Sink>(
    out: &mut S,
    instances: u64,
    kept: u64,
    rounds: u32,
) -> Result<(), WriteFault>
    ensures emits { Emits (S.held out.old) (S.held out.new)
        (proof_text instances kept rounds) result }
    ensures failed { S.has_failed out.old ≡ false → S.has_failed out.new ≡ is_err result }
{
    let mut printer = Printer::new();
    print_count(&mut printer, out, b"instances ", instances);
    print_count(&mut printer, out, b"kept ", kept);
    print_count(&mut printer, out, b"rounds ", rounds as u64);
    printer.print(out, b"certificate holds");
    printer.print_byte(out, b'\n');
    printer.finish(out)
}

// Prints the role of a file, as the prefix of a line about it.
fn print_role<S: Sink>(printer: &mut Printer, out: &mut S, role: &[u8])
    ensures { Prints S.held S.has_failed out.old out.new printer.old printer.new
        (role_prefix role.now) }
{
    printer.print(out, role);
    printer.print(out, b": ");
}

// Prints the lines of the findings of a file, each after the file's role.
fn print_role_findings<S: Sink>(
    printer: &mut Printer,
    out: &mut S,
    role: &[u8],
    findings: &[Finding],
)
    ensures { Prints S.held S.has_failed out.old out.new printer.old printer.new
        (flat_map (λ f. role_line role.now (finding_line f)) findings.now) }
{
    for finding in findings {
        print_role(printer, out, role);
        print_finding(printer, out, finding);
    }
}

// Prints the lines of the rules that a file's instances break, each after the file's role.
fn print_role_rule_findings<S: Sink>(
    printer: &mut Printer,
    out: &mut S,
    role: &[u8],
    findings: &[RuleFinding<'_>],
)
    ensures { Prints S.held S.has_failed out.old out.new printer.old printer.new
        (flat_map (λ f. role_line role.now (rule_finding_line f)) findings.now) }
{
    for finding in findings {
        print_role(printer, out, role);
        print_rule_finding(printer, out, finding);
    }
}

/// Prints a line for each finding of a file, then one for each rule that its instances break. Each
/// line begins with `role`.
///
/// # Errors
/// - `WriteFault` if the sink fails; a prefix of the text was written.
pub fn print_findings_of<S: Sink>(
    out: &mut S,
    role: &[u8],
    findings: &[Finding],
    rule_findings: &[RuleFinding<'_>],
) -> Result<(), WriteFault>
    ensures emits { Emits (S.held out.old) (S.held out.new)
        (flat_map (λ f. role_line role.now (finding_line f)) findings.now
        ++ flat_map (λ f. role_line role.now (rule_finding_line f)) rule_findings.now) result }
    ensures failed { S.has_failed out.old ≡ false → S.has_failed out.new ≡ is_err result }
{
    let mut printer = Printer::new();
    print_role_findings(&mut printer, out, role, findings);
    print_role_rule_findings(&mut printer, out, role, rule_findings);
    printer.finish(out)
}
