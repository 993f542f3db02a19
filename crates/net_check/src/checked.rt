//! `check`, and what it answers.
ghost use Rattle.std.specs.Prelude.{◌≡◌, ℕ, IfOk, OnOk, IfErr};
ghost use Rattle.net_rules.{specs.Rules.{Accepts}, specs.Promises.{EndsWithinRank}};
ghost use Rattle.net_check.specs.Errors.{NamesFirstFault};
ghost use Rattle.mctp_transport.specs.PacketValues.{KeyValue};
ghost use Rattle.net_runs.{specs.States.{NetworkState, unit_of}, specs.Headline.{Headline}, specs.Deliveries.{Delivers}, specs.ExactMessages.{RunsAsSent}, specs.NetworkWalks.{WalksOverNetworks}, specs.Walkers.{WalkedState}, specs.WalkedMessages.{WalkedRunsAsSent}, specs.WalkedPromises.{WalkedHeadline, WalkedDelivers}};
ghost use Rattle.net_tables.specs.TwoPlans.{one_plan};

use crate::check_error::CheckError;
use net_rules::first_of_all;
use plan_values::{Certificate, Plan};
use std::alloc::Global;
use std::marker::Model;

/// A plan and a certificate of which each rule holds. Only `check` makes one.
#[derive(Drop)]
pub struct Checked<'a> {
    plan: &'a Plan,
    certificate: &'a Certificate,
}

impl<'a> Model for Checked<'a> {
    ghost use Rattle.plan_values.{specs.declared.plan.Plan.{Plan}, specs.declared.certificate.Certificate.{Certificate}};
    ghost use Rattle.net_rules.specs.Rules.{Accepts};

    ghost Value = { Plan × Certificate };

    ghost view = { λ c. (c.plan.now, c.certificate.now) };

    ghost invariant = { λ c. Accepts c.plan.now c.certificate.now };
}

impl<'a> Checked<'a> {
    /// The plan that was checked.
    pub fn plan(&self) -> &'a Plan
        ensures plan { result.now ≡ self.now.0 }
        ensures accepted { Accepts self.now.0 self.now.1 }
    {
        self.plan
    }

    /// The certificate that was checked.
    pub fn certificate(&self) -> &'a Certificate
        ensures certificate { result.now ≡ self.now.1 }
        ensures accepted { Accepts self.now.0 self.now.1 }
    {
        self.certificate
    }
}

/// Whether each rule holds of the plan and the certificate. Otherwise the error is the first fault, or out of memory:
/// it takes lists with an entry for each node and for the records of one terminus after the other, and sets of their
/// handles and places where these have a fault.
#[tactic(auto, using(net_rules::proofs::Ends::ends_within_rank, net_runs::proofs::Exact::runs_as_sent))]
pub fn check<'a>(
    alloc: Global,
    plan: &'a Plan,
    certificate: &'a Certificate,
) -> Result<Checked<'a>, CheckError>
    ensures checked { IfOk result (λ checked. checked ≡ (plan.now, certificate.now)) }
    ensures accepted { OnOk result (Accepts plan.now certificate.now) }
    ensures first_fault { IfErr result (λ error. NamesFirstFault plan.now certificate.now error) }

    // Following rows ends, within the certified rank.
    ensures ends { OnOk result (EndsWithinRank plan.now certificate.now) }

    // In every run a packet enters only the node that holds its destination, within its certified hops, and what comes
    // joins packets that were put in; a finished walk over a terminus has collected each record once.
    ensures headline { OnOk result (Headline plan.now certificate.now) }

    // A flight whose destination is held, and held or routed by its origin, is never stopped, and enters within the
    // certified hops and one move more.
    ensures delivers { OnOk result (Delivers plan.now certificate.now) }

    // Where one message at a time is sent under a key to a destination, of five packets at most, what comes of it is
    // that message.
    ensures exact { OnOk result ((key : KeyValue) (d : ℕ) (w : NetworkState) → RunsAsSent (unit_of plan.now) plan.now key d w) }

    // The exchanges that a walker has taken are a walk over the records of the terminus that it asks, whatever is lost,
    // repeated or out of order.
    ensures walks { OnOk result (WalksOverNetworks plan.now certificate.now) }

    // The headline, the deliveries and exact messages hold of runs with walkers too.
    ensures walked_headline { OnOk result (WalkedHeadline (one_plan plan.now) certificate.now) }
    ensures walked_delivers { OnOk result (WalkedDelivers (one_plan plan.now) certificate.now) }
    ensures walked_exact { OnOk result ((key : KeyValue) (d : ℕ) (w : WalkedState) → WalkedRunsAsSent (unit_of plan.now) (one_plan plan.now) key d w) }
{
    if let Some(fault) = first_of_all(alloc, plan, certificate)? {
        return Err(CheckError::Fault(fault));
    }
    Ok(Checked { plan, certificate })
}
