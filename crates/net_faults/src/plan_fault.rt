//! One thing that rules certificates of a plan out.

use net_rules::{CertifyError, FaultRun};

/// One thing that rules certificates of a plan out.
#[derive(Debug, Drop)]
pub enum PlanFault {
    /// The plan breaks a rule at a place, or at neighbouring endpoint IDs of one.
    Broken(FaultRun),
    /// A loop of owners, a loop of rows or a bad chain, each as `certify` tells the first one. A loop of rows stands
    /// there with the least endpoint ID that goes round it, and with how many more do; the others with 0.
    Obstacle(CertifyError, usize),
}
