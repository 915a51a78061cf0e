//! Why the tables of a certificate aren't accepted.

ghost use Rattle.std.specs.Prelude.{◌≡◌};
ghost use Rattle.verifying.specs.declared.fault.TablesFault.TheVariants as tables;
ghost use Rattle.verifying.specs.steps.Faults.{certificate_fault, table_fault, tables_fault};

use certificate_checks::fault::TableFault;
use certificate_text::fault::CertFault;
use reports::fault::Fault;
use reports::refusal::Refusal;
use std::alloc::AllocError;

/// Why the tables of a certificate aren't accepted: a refusal, or out of memory.
#[derive(Clone, Copy, Debug, PartialEq, Eq)]
pub(crate) enum TablesFault {
    Refused(Refusal),
    Memory,
}

impl From<AllocError> for TablesFault {
    ghost from_gives = { λ _ e. e ≡ tables.Memory };

    fn from(_: AllocError) -> TablesFault {
        TablesFault::Memory
    }
}

impl From<CertFault> for TablesFault {
    ghost from_gives = { λ fault e. e ≡ certificate_fault fault };

    fn from(fault: CertFault) -> TablesFault {
        match fault {
            CertFault::OldVersion => TablesFault::Refused(Refusal::OldVersion),
            CertFault::BadText { line } => TablesFault::Refused(Refusal::BadText { line }),
            CertFault::Memory => TablesFault::Memory,
        }
    }
}

impl From<TableFault> for TablesFault {
    ghost from_gives = { λ fault e. e ≡ table_fault fault };

    fn from(fault: TableFault) -> TablesFault {
        match fault {
            TableFault::Members => TablesFault::Refused(Refusal::WrongNames),
            TableFault::Ground => TablesFault::Refused(Refusal::GroundlessSplit),
            TableFault::Stable => TablesFault::Refused(Refusal::Unstable),
            TableFault::Memory => TablesFault::Memory,
        }
    }
}

impl<'s> From<TablesFault> for Fault<'s> {
    ghost from_gives = { λ fault e. e ≡ tables_fault fault };

    fn from(fault: TablesFault) -> Fault<'s> {
        match fault {
            TablesFault::Refused(refusal) => Fault::Certificate(refusal),
            TablesFault::Memory => Fault::Memory,
        }
    }
}
