//! Whether anything of a message key is left in the network.
ghost use Rattle.std.specs.Prelude.{◌≡◌, ◌≢◌, ℕ, ◌-◌, ◌<◌, ◌↔◌, IsTrue, None, length, false, true};
ghost use Rattle.mctp_transport.specs.Packets.{key_value};

use super::Traffic;
use crate::terminus_queue::none_waits_at;
use mctp_transport::{Eid, Key};
use pdr_repository::Terminus;

impl<'a, T: Terminus> Traffic<'a, T> {
    ghost use Rattle.net_sim.{specs.Standing.{HasNetworkState}, specs.Traffics.{traffic_value}, specs.Settling.{IsClearAt}};
    ghost use Rattle.net_runs.{specs.States.{NetworkState}, specs.ExactMessages.{IsSettled}};
    ghost use Rattle.net_tables.specs.Routing.{Holds};

    /// Whether no node with a terminus holds the endpoint ID.
    pub fn no_terminus_holds(&self, eid: Eid) -> bool
        ensures { (w : NetworkState) → HasNetworkState (traffic_value T.tid T.records self.now) w
            → IsTrue result ↔ ((n : ℕ) → Holds self.now.router.tables.plan n eid.value → w.terminus n ≡ None) }
    {
        for node in 0..self.router.plan().nodes.len() {
            if self.is_terminus_of(node, eid) {
                return false;
            }
        }
        true
    }

    /// Whether the node holds the endpoint ID and has a terminus.
    fn is_terminus_of(&self, node: usize, eid: Eid) -> bool
        requires { node < length self.now.router.tables.plan.nodes.items }
        ensures { (w : NetworkState) → HasNetworkState (traffic_value T.tid T.records self.now) w
            → IsTrue result ↔ (Holds self.now.router.tables.plan node eid.value × (w.terminus node ≢ None)) }
    {
        self.eid_at(node) == eid && self.queues[node].is_some()
    }

    /// Whether no packet of the key is on its way to the endpoint ID, and none of its messages is open or waits at the
    /// nodes that hold that.
    pub fn is_settled(&self, key: Key, eid: Eid) -> bool
        ensures { (w : NetworkState) → HasNetworkState (traffic_value T.tid T.records self.now) w
            → IsTrue result ↔ IsSettled self.now.router.tables.plan w (key_value key) eid.value }
    {
        if !self.flights.none_is_to(key, eid) {
            return false;
        }
        for node in 0..self.router.plan().nodes.len() {
            if !self.is_clear_for(node, key, eid) {
                return false;
            }
        }
        true
    }

    /// Whether the node does not hold the endpoint ID, or is clear of the key.
    fn is_clear_for(&self, node: usize, key: Key, eid: Eid) -> bool
        requires { node < length self.now.router.tables.plan.nodes.items }
        ensures { (w : NetworkState) → HasNetworkState (traffic_value T.tid T.records self.now) w
            → IsTrue result ↔ (Holds self.now.router.tables.plan node eid.value → IsClearAt w (key_value key) node) }
    {
        if self.router.plan().nodes[node].eid == eid {
            self.is_clear_at(node, key)
        } else {
            true
        }
    }

    /// Whether no message of the key is open at the node, and none waits there.
    fn is_clear_at(&self, node: usize, key: Key) -> bool
        requires { node < length self.now.router.tables.plan.nodes.items }
        ensures { (w : NetworkState) → HasNetworkState (traffic_value T.tid T.records self.now) w
            → IsTrue result ↔ IsClearAt w (key_value key) node }
    {
        if self.assemblers[node].is_open(key) {
            return false;
        }
        none_waits_at(&self.queues[node], key)
    }
}
