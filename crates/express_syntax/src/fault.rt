//! Why a text isn't read as a schema, and why a schema isn't used.

ghost use Rattle.std.specs.Prelude.{◌≡◌};
ghost use Rattle.express_syntax.specs.declared.fault.SyntaxFault.TheVariants.{Memory};

use std::alloc::{AllocError, AllocFailed};
use thiserror::Error;

/// A part of EXPRESS that isn't read.
#[derive(Clone, Copy, Debug, PartialEq, Eq, Error)]
pub enum LeftOut {
    /// USE FROM (ISO 10303-11, 11.1).
    #[error("Use")]
    Use,
    /// REFERENCE FROM (ISO 10303-11, 11.2).
    #[error("Reference")]
    Reference,
    /// An attribute under another name (ISO 10303-11, 9.2.3.4).
    #[error("Renamed")]
    Renamed,
    /// An extensible constructed type (ISO 10303-11, 8.4).
    #[error("Extensible")]
    Extensible,
    /// A constructed type based on another (ISO 10303-11, 8.4).
    #[error("BasedOn")]
    BasedOn,
    /// A generic entity type (ISO 10303-11, 9.5.3).
    #[error("GenericEntity")]
    GenericEntity,
    /// A second schema in the text, after the first one or inside it.
    #[error("SecondSchema")]
    SecondSchema,
    /// More bytes than the limit.
    #[error("TooLarge")]
    TooLarge,
}

/// What is wrong at the byte offset of a fault.
#[derive(Clone, Copy, Debug, PartialEq, Eq, Error)]
pub enum FaultKind {
    /// No token within the limits begins here.
    #[error("S1 BadToken")]
    BadToken,
    /// Another token is expected here, or the text ends.
    #[error("S2 Expected")]
    Expected,
    /// A part of EXPRESS begins here that isn't read.
    #[error("S8 LeftOut {0}")]
    LeftOut(LeftOut),
    /// More brackets or aggregate types are open than the limit.
    #[error("S9 TooDeep")]
    TooDeep,
}

/// Why a text isn't the tokens of a schema.
#[derive(Clone, Copy, Debug, PartialEq, Eq)]
pub enum SyntaxFault {
    /// What is wrong, and the number of bytes before it.
    Fault { kind: FaultKind, place: u64 },
    /// Memory ran out.
    Memory,
}

impl From<AllocError> for SyntaxFault {
    ghost from_gives = { λ _ e. e ≡ Memory };

    fn from(_: AllocError) -> SyntaxFault {
        SyntaxFault::Memory
    }
}

impl<T: Drop> From<AllocFailed<T>> for SyntaxFault {
    ghost from_gives = { λ _ e. e ≡ Memory };

    fn from(_: AllocFailed<T>) -> SyntaxFault {
        SyntaxFault::Memory
    }
}

/// What is wrong with a name of a schema.
#[derive(Clone, Copy, Debug, PartialEq, Eq, Error)]
pub enum NameFault {
    /// No declaration with this name is of the kind that is required here.
    #[error("S3 UnknownName")]
    UnknownName,
    /// The name is declared twice.
    #[error("S4 DuplicateName")]
    DuplicateName,
    /// An entity is its own proper supertype (ISO 10303-11, 9.2.3).
    #[error("S5 SupertypeCycle")]
    SupertypeCycle,
    /// A defined type is its own underlying type, directly or through others (ISO 10303-11, 8.3).
    #[error("S6 TypeCycle")]
    TypeCycle,
}

/// Why a schema isn't used: a fault of its text or of a name in it.
#[derive(Debug, PartialEq, Eq, Error, Drop)]
pub enum SchemaFault {
    /// What is wrong with the text, and the number of bytes before it.
    #[error("{kind} at byte {place}")]
    Text { kind: FaultKind, place: u64 },
    /// What is wrong with a name. The name is in capitals.
    #[error("{kind} {name}")]
    Name { kind: NameFault, name: String },
    /// Memory ran out.
    #[error("memory")]
    Memory,
}

impl From<SyntaxFault> for SchemaFault {
    ghost use Rattle.express_syntax.specs.steps.Faults.{schema_fault};

    ghost from_gives = { λ fault e. e ≡ schema_fault fault };

    fn from(fault: SyntaxFault) -> SchemaFault {
        match fault {
            SyntaxFault::Fault { kind, place } => SchemaFault::Text { kind, place },
            SyntaxFault::Memory => SchemaFault::Memory,
        }
    }
}
