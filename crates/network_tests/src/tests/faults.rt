//! The faults that are found in networks.
use mctp_transport::Eid;
use net_check::{CheckError, Fault, Rule, check};
use plan_values::{Certificate, Plan};
use std::alloc::{AllocError, Global};

/// A fault by its rule, its node, its entry and its endpoint ID.
pub type FaultAt = (Rule, usize, Option<usize>, Option<u8>);

/// Whether this is the fault that was found; none where none is wanted.
pub fn is_at(found: Option<Fault>, wanted: &Option<FaultAt>) -> bool {
    match wanted {
        Some((rule, node, entry, eid)) => {
            found
                == Some(Fault {
                    rule: *rule,
                    node: *node,
                    entry: *entry,
                    eid: eid.map(Eid::new),
                })
        }
        None => found.is_none(),
    }
}

/// The fault that is found; none where the plan and the certificate are accepted.
pub fn found(
    alloc: Global,
    plan: &Plan,
    certificate: &Certificate,
) -> Result<Option<Fault>, AllocError> {
    match check(alloc, plan, certificate) {
        Ok(_) => Ok(None),
        Err(CheckError::Fault(fault)) => Ok(Some(fault)),
        Err(CheckError::OutOfMemory) => Err(AllocError),
    }
}
