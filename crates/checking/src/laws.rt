//! Laws of reports and of what `check` returns.

ghost use Rattle.checking.specs.Laws.{ChecksAreOne};
ghost use Rattle.checking.specs.Reporting.{ReportsAreOne};

/// Any two reports on one file by one schema have the same lines.
pub fn reports_are_one()
    ensures { ReportsAreOne }
{}

/// Any two results of `check` for the same two texts agree, unless one of them is a device's fault
/// or out of memory.
pub fn checks_are_one()
    ensures { ChecksAreOne }
{
    reports_are_one();
}
