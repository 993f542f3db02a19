//! Why a plan and a certificate are not accepted.

use net_rules::Fault;
use std::alloc::AllocError;

/// Why a plan and a certificate are not accepted.
#[derive(Clone, Copy, Debug, PartialEq, Eq)]
pub enum CheckError {
    /// The first fault.
    Fault(Fault),
    /// Memory ran out.
    OutOfMemory,
}

impl From<AllocError> for CheckError {
    ghost use Rattle.std.specs.Prelude.{◌≡◌};
    ghost use Rattle.net_check.specs.declared.check_error.CheckError.TheVariants.{OutOfMemory};

    ghost from_gives = { λ _ error. error ≡ OutOfMemory };

    fn from(_error: AllocError) -> Self {
        CheckError::OutOfMemory
    }
}
