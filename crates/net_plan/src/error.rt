//! Why a text gave no value.
ghost use Rattle.std.specs.Prelude.{◌≡◌};

use crate::stream::TextFault;
use std::alloc::AllocError;
use thiserror::Error;

/// Why a text gave no plan, no certificate and no events. Each is printed as the code that users see.
#[derive(Clone, Copy, Debug, PartialEq, Eq, Error)]
pub enum PlanError {
    /// The text is no JSON.
    #[error("J01")]
    NotJson,
    /// A value is of another kind than the one that belongs there.
    #[error("J02")]
    WrongKind,
    /// An object lacks a key.
    #[error("J03")]
    MissingKey,
    /// An object has a key that does not belong to it.
    #[error("J04")]
    UnknownKey,
    /// A number is out of its range, a name is not well formed, or a word is none of those that may stand there.
    #[error("J05")]
    OutOfRange,
    /// A name is that of no bus or node.
    #[error("J06")]
    UnknownName,
    /// A text is no hex.
    #[error("J07")]
    BadHex,
    /// The text is longer than 16,777,216 bytes, or a list or an address is too long.
    #[error("J08")]
    OverLimit,
    /// Two buses have one name, a list of a certificate has two entries of one node, ranges do not ascend apart, or an
    /// object has a key twice.
    #[error("J09")]
    Doubled,
    /// The source or the sink failed.
    #[error("file")]
    Device,
    /// There was too little memory.
    #[error("no memory")]
    OutOfMemory,
}

/// Why a JSON value was not read.
#[derive(Clone, Copy, Debug, PartialEq, Eq)]
pub enum ValueFault {
    WrongKind,
    MissingKey,
    UnknownKey,
    OutOfRange,
    UnknownName,
    BadHex,
    OverLimit,
    Doubled,
    OutOfMemory,
}

impl From<AllocError> for ValueFault {
    ghost use Rattle.net_plan.specs.declared.error.ValueFault.TheVariants.{OutOfMemory};

    ghost from_gives = { λ _ e. e ≡ OutOfMemory };

    fn from(_error: AllocError) -> ValueFault {
        ValueFault::OutOfMemory
    }
}

impl From<ValueFault> for PlanError {
    ghost use Rattle.net_plan.specs.Reading.{error_of};

    ghost from_gives = { λ fault e. e ≡ error_of fault };

    fn from(fault: ValueFault) -> PlanError {
        match fault {
            ValueFault::WrongKind => PlanError::WrongKind,
            ValueFault::MissingKey => PlanError::MissingKey,
            ValueFault::UnknownKey => PlanError::UnknownKey,
            ValueFault::OutOfRange => PlanError::OutOfRange,
            ValueFault::UnknownName => PlanError::UnknownName,
            ValueFault::BadHex => PlanError::BadHex,
            ValueFault::OverLimit => PlanError::OverLimit,
            ValueFault::Doubled => PlanError::Doubled,
            ValueFault::OutOfMemory => PlanError::OutOfMemory,
        }
    }
}

impl From<TextFault> for PlanError {
    ghost use Rattle.net_plan.specs.TextFaults.{text_error};

    ghost from_gives = { λ fault e. e ≡ text_error fault };

    fn from(fault: TextFault) -> PlanError {
        match fault {
            TextFault::TooLong => PlanError::OverLimit,
            TextFault::Device => PlanError::Device,
            TextFault::OutOfMemory => PlanError::OutOfMemory,
        }
    }
}
