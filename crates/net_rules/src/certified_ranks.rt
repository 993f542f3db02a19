//! The certified ranks by node and endpoint ID, ready for look-ups.
ghost use Rattle.std.specs.Prelude.{◌≡◌, IfOk};
ghost use Rattle.net_tables.specs.Ranks.{rank};
ghost use Rattle.net_rules.specs.Stretches.{IsAlong};

use crate::node_ranges::{NodeRanges, RankStretch};
use mctp_transport::Eid;
use net_tables::lookup::ranges_at;
use plan_values::Certificate;
use std::alloc::{AllocError, Global};
use std::marker::Model;

/// The ranks that a certificate gives, with the ranges of each of the first nodes by its index.
#[derive(Drop)]
pub struct CertifiedRanks<'a> {
    certificate: &'a Certificate,
    by_node: Vec<NodeRanges<'a>>,
}

impl<'a> Model for CertifiedRanks<'a> {
    ghost use Rattle.plan_values.specs.declared.certificate.Certificate.{Certificate};
    ghost use Rattle.net_rules.specs.RanksByEid.{AreRangesByNode};

    ghost Value = { Certificate };

    ghost view = { λ r. r.certificate.now };

    ghost invariant = { λ r. AreRangesByNode r.certificate.now r.by_node.items };
}

impl<'a> CertifiedRanks<'a> {
    ghost use Rattle.net_rules.specs.RanksByEid.{AreRangesByNode};

    /// Those of the certificate, with the ranges of so many nodes at hand.
    pub fn of(alloc: Global, certificate: &'a Certificate, count: usize) -> Result<Self, AllocError>
        ensures { IfOk result (λ ranks. ranks ≡ certificate.now) }
    {
        let mut by_node = Vec::with_capacity(alloc, count)?;
        for node in 0..count {
            by_node.push(NodeRanges::of(ranges_at(certificate, node)))?;
        }
        Ok(CertifiedRanks {
            certificate,
            by_node,
        })
    }

    /// The certificate that gives them.
    pub fn certificate(&self) -> &'a Certificate
        ensures { result.now ≡ self.now }
    {
        self.certificate
    }

    /// The rank of a node for an endpoint ID, and how far it goes on. The guess, where the node's range may stand,
    /// changes nothing but the time that this takes.
    #[inline(always)]
    pub fn stretch(&self, node: usize, eid: Eid, guess: usize) -> RankStretch
        ensures { IsAlong (rank self.now node) eid.value result.end result.rank }
    {
        match self.by_node.get(node) {
            Some(ranges) => ranges.stretch(eid, guess),
            None => NodeRanges::of(ranges_at(self.certificate, node)).stretch(eid, guess),
        }
    }

    /// The rank of a node for an endpoint ID.
    pub fn rank_of(&self, node: usize, eid: Eid) -> u8
        ensures { result ≡ rank self.now node eid.value }
    {
        self.stretch(node, eid, 0).rank
    }
}
