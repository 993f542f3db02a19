//! Laws of what a network plays. The functions do nothing: their contracts are the laws.
ghost use Rattle.net_tables.specs.TwoPlans.{Tables};
ghost use Rattle.net_runs.specs.Walkers.{WalkedState, WalkedEvent};
ghost use Rattle.net_sim.{specs.LackingRooms.{NetworkLacksRoom}, specs.MemoryFree.{TakesNoRoom, NeverWants}, specs.Networks.{network_value, checked_of}, specs.SentRequests.{RequestsComeAsSent}, specs.WalkedStanding.{StandsForWalked}};

use crate::network::Network;
use pdr_repository::Terminus;

/// Of one request of at most five packets nothing else comes whole, whatever is lost, repeated or out of order.
pub fn requests_come_as_sent()
    ensures { (tables : Tables) → RequestsComeAsSent tables }
{}

/// For a loss, an expiry, a move without a copy that enters no node, a switch and what is collected a network never
/// lacks room. Memory never runs out at one of them, nor at an event that is refused.
pub fn events_that_take_no_memory<T: Terminus>(network: &Network<T>)
    ensures lacks { (w : WalkedState) (event : WalkedEvent) → StandsForWalked (network_value T.tid T.records network.now) w
        → TakesNoRoom (checked_of network.now).0.plan w event → ¬ NetworkLacksRoom network.now event }
    ensures wants { (tables : Tables) (w : WalkedState) (event : WalkedEvent) → NeverWants tables w event }
{}
