//! Where faults at endpoint IDs are looked for: a rule, a node and an entry of it.
ghost use Rattle.std.specs.Prelude.{◌<◌, length};

use crate::all_faults::bounds::Bounds;
use crate::all_faults::judge::Judge;
use crate::fault_run::{EidSpan, FaultRun};
use crate::rule::Rule;
use crate::stretches::Stretched;
use mctp_transport::Eid;

/// A rule, a node, and one of its rows or records, or the node itself.
#[derive(Clone, Copy)]
pub struct Site<'a> {
    pub judge: &'a Judge<'a>,
    pub rule: Rule,
    pub node: usize,
    pub entry: Option<usize>,
    pub ghost within: { node < length judge.now.plan.now.nodes.items },
}

impl<'a> Site<'a> {
    ghost use Rattle.std.specs.Prelude.{◌≡◌, ◌↔◌, ◌+◌, ◌<◌, ◌≤◌, ℕ, Some, None, IsTrue};
    ghost use Rattle.net_rules.specs.FaultLists.{DemandsOf, IsOutside};

    /// The faults there at these endpoint IDs, or at none.
    pub fn run(&self, eids: Option<EidSpan>) -> FaultRun
        ensures { result ≡ record { rule = self.now.rule; node = self.now.node; entry = self.now.entry; eids = eids } }
    {
        FaultRun {
            rule: self.rule,
            node: self.node,
            entry: self.entry,
            eids,
        }
    }

    /// Whether the rule is met there at no endpoint ID.
    pub fn is_met_alone(&self) -> bool
        ensures { IsTrue result ↔ DemandsOf self.now.judge.now.plan.now self.now.judge.now.ranks self.now.rule self.now.node self.now.entry None }
    {
        self.judge.is_met(self.rule, self.node, self.entry, None)
    }

    /// The last endpoint ID up to which the rule is broken, from one on at which it is.
    pub fn last_broken(&self, first: Eid, bounds: Bounds) -> Eid
        requires within { first.value < bounds.end }
        requires broken { ¬ DemandsOf self.now.judge.now.plan.now self.now.judge.now.ranks self.now.rule self.now.node self.now.entry (Some first.value) }
        requires outside { (e : ℕ) → IsOutside bounds.first bounds.end e → DemandsOf self.now.judge.now.plan.now self.now.judge.now.ranks self.now.rule self.now.node self.now.entry (Some e) }
        ensures after { first.value ≤ result.value }
        ensures broken { (e : ℕ) → first.value ≤ e → e ≤ result.value
            → ¬ DemandsOf self.now.judge.now.plan.now self.now.judge.now.ranks self.now.rule self.now.node self.now.entry (Some e) }
        ensures whole { DemandsOf self.now.judge.now.plan.now self.now.judge.now.ranks self.now.rule self.now.node self.now.entry (Some (result.value + 1)) }
    {
        let mut last = first;
        for number in u16::from(first.value) + 1..bounds.end {
            let eid = Eid::new(number as u8);
            if self.is_met_at(eid) {
                return last;
            }
            last = eid;
        }
        last
    }
}

impl<'a> Stretched for Site<'a> {
    ghost use Rattle.std.specs.Prelude.{ℕ, ◌≡◌, ◌↔◌, ◌+◌, Some, IsTrue};
    ghost use Rattle.net_rules.specs.FaultLists.{DemandsOf};

    ghost Demand = { λ site e. DemandsOf site.judge.now.plan.now site.judge.now.ranks site.rule site.node site.entry (Some e) };

    fn is_met_at(&self, eid: Eid) -> bool {
        self.judge
            .is_met(self.rule, self.node, self.entry, Some(eid))
    }

    fn stretch_end(&self, eid: Eid) -> u16 {
        u16::from(eid.value) + 1
    }
}
