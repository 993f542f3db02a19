//! Why a plan has no certificate.

use crate::certifying::chains::ChainFault;
use crate::fault::Fault;
use mctp_transport::Eid;
use std::alloc::AllocError;

/// Why a plan has no certificate: the first cause, in the order of the rules.
#[derive(Debug, Drop)]
pub enum CertifyError {
    /// The plan breaks a rule, whatever the certificate.
    Fault(Fault),
    /// Owners go round (C07): the nodes from the first one on a circle of owners, each followed by its owner, back to
    /// itself, so that the first stands there twice.
    OwnerLoop(Vec<usize>),
    /// What is for this endpoint ID goes round (C10): the nodes from the first one on a circle, along their rows, back
    /// to itself, so that the first stands there twice. It is the least endpoint ID that goes round.
    Loop(Eid, Vec<usize>),
    /// This node is the first whose terminus has records that the next handles do not lead through once each (C14): the
    /// node, what is wrong, and the index of the first record in its list of which that is so.
    BadChain(usize, ChainFault, usize),
    /// Memory ran out.
    OutOfMemory,
}

impl From<AllocError> for CertifyError {
    ghost use Rattle.std.specs.Prelude.{◌≡◌};
    ghost use Rattle.net_rules.specs.declared.certify_error.CertifyError.TheVariants.{OutOfMemory};

    ghost from_gives = { λ _ error. error ≡ OutOfMemory };

    fn from(_error: AllocError) -> Self {
        CertifyError::OutOfMemory
    }
}
