//! Between which nodes a certificate allows most hops.
ghost use Rattle.std.specs.Prelude.{◌≡◌};
ghost use Rattle.net_tables.specs.Ranks.{rank};

use mctp_transport::Eid;
use net_tables::lookup::{eid_at, ranges_at, rank_in_ranges};
use plan_values::{Certificate, Plan};

/// Two nodes, by their indexes in the plan's list, and how many hops a certificate allows a packet from the one to the
/// other, 1 to 255.
#[derive(Clone, Copy, Debug, PartialEq, Eq)]
pub struct MostHops {
    pub from: usize,
    pub to: usize,
    pub hops: u8,
}

/// The two nodes between which the certificate allows most hops; where it allows as many between others too, the first
/// in the order of the plan, by the node that sends and then by the other. None where it allows no hop between any two.
pub fn most_hops(plan: &Plan, certificate: &Certificate) -> Option<MostHops> {
    let mut most = None;
    let mut hops = 0;
    for from in 0..plan.nodes.len() {
        for to in 0..plan.nodes.len() {
            let allowed = certified_hops(plan, certificate, from, to);
            if allowed > hops {
                hops = allowed;
                most = Some(MostHops { from, to, hops });
            }
        }
    }
    most
}

/// How many hops the certificate allows from a node to another.
fn certified_hops(plan: &Plan, certificate: &Certificate, from: usize, to: usize) -> u8 {
    match eid_at(plan, to) {
        Some(eid) => rank_of(certificate, from, eid),
        None => 0,
    }
}

/// The rank that the certificate gives a node and an endpoint ID.
pub fn rank_of(certificate: &Certificate, node: usize, eid: Eid) -> u8
    ensures { result ≡ rank certificate.now node eid.value }
{
    rank_in_ranges(ranges_at(certificate, node), eid.value)
}
