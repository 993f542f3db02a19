//! What the nodes of a network go by.
ghost use Rattle.std.specs.Prelude.{◌≡◌, option_map, IfSome};
ghost use Rattle.net_rules.specs.MoveRules.{AcceptsMove};
ghost use Rattle.net_tables.specs.TwoPlans.{one_plan, moving};
ghost use Rattle.net_check.specs.Accepted.{IsAccepted};

use crate::checked::Checked;
use crate::checked_move::CheckedMove;
use plan_values::{Certificate, Plan};
use std::marker::Model;

/// A checked plan, or a checked move from one plan to another: the plan that the nodes start on, the plan whose rows
/// they switch to, if any, and the certificate, of which each rule holds.
#[derive(Drop)]
pub struct AcceptedNetwork<'a> {
    plan: &'a Plan,
    after: Option<&'a Plan>,
    certificate: &'a Certificate,
}

impl<'a> Model for AcceptedNetwork<'a> {
    ghost use Rattle.std.specs.Prelude.{option_map};
    ghost use Rattle.plan_values.specs.declared.certificate.Certificate.{Certificate};
    ghost use Rattle.net_tables.specs.TwoPlans.{Tables};
    ghost use Rattle.net_check.specs.Accepted.{AreAccepted};

    ghost Value = { Tables × Certificate };

    ghost view = { λ a. (record { plan = a.plan.now; after = option_map (λ plan. plan.now) a.after }, a.certificate.now) };

    ghost invariant = { λ a. AreAccepted a.plan.now (option_map (λ plan. plan.now) a.after) a.certificate.now };
}

impl<'a> AcceptedNetwork<'a> {
    /// A checked plan: its nodes have no rows to switch to.
    pub fn of_plan(checked: Checked<'a>) -> AcceptedNetwork<'a>
        ensures { result ≡ (one_plan checked.entry.0, checked.entry.1) }
    {
        AcceptedNetwork {
            plan: checked.plan(),
            after: None,
            certificate: checked.certificate(),
        }
    }

    /// A checked move.
    pub fn of_move(checked: CheckedMove<'a>) -> AcceptedNetwork<'a>
        ensures { result ≡ (moving checked.entry.0 checked.entry.1, checked.entry.2) }
    {
        AcceptedNetwork {
            plan: checked.before(),
            after: Some(checked.after()),
            certificate: checked.certificate(),
        }
    }

    /// The plan that the nodes start on.
    pub fn plan(&self) -> &'a Plan
        ensures plan { result.now ≡ self.now.0.plan }
        ensures accepted { IsAccepted self.now.0 self.now.1 }
    {
        self.plan
    }

    /// The plan whose rows they switch to, if any.
    pub fn after(&self) -> Option<&'a Plan>
        ensures plan { option_map (λ plan. plan.now) result ≡ self.now.0.after }
        ensures accepted { IfSome result (λ after. AcceptsMove self.now.0.plan after.now self.now.1) }
    {
        self.after
    }

    /// The certificate that was checked.
    pub fn certificate(&self) -> &'a Certificate
        ensures certificate { result.now ≡ self.now.1 }
        ensures accepted { IsAccepted self.now.0 self.now.1 }
    {
        self.certificate
    }
}
