//! A network of nodes that are emulated.
ghost use Rattle.std.specs.Prelude.{◌≡◌, ◌<◌, ◌≤◌, ℕ, [], IfOk, Some, length, map, slice_get, slice_index};
ghost use Rattle.mctp_transport.{specs.PacketValues.{Spelled}, specs.Packets.{packet_value_of}};
ghost use Rattle.emulated_node.{specs.Emulating.{HaveStates}, specs.Networks.{States, hops_of, sent_on, sent_value, with_state}, specs.Nodes.{NodeState, Setting}, specs.ReceivedValues.{received_value}, specs.Receiving.{Receives}, specs.Standing.{setting_of}};

use crate::emulated::Emulated;
use crate::handled::{Handled, MOST_HOPS, SentPacket};
use crate::received::Received;
use mctp_transport::{Eid, PacketView};
use pdr_repository::Terminus;
use plan_values::Plan;
use std::alloc::{AllocError, Global};

/// How many packets are taken for one at most.
pub const MOST_PACKETS: usize = 4096;

/// The nodes of a plan as devices that answer, joined by its buses, all but one.
#[derive(Drop)]
pub struct EmulatedNetwork<'a, T> {
    alloc: Global,
    plan: &'a Plan,
    outside: usize,
    nodes: Vec<Emulated<'a, T>>,
    ghost same: { (n : ℕ) (set : Setting) → slice_get (map setting_of nodes.items) n ≡ Some set → set.plan ≡ plan.now },
}

/// All that is sent for a packet, in the order in which it is sent and taken: the packet, then what is sent for it, then
/// what is sent for that.
#[derive(Drop)]
pub struct Spread {
    pub packets: Vec<SentPacket>,
    /// What became of each packet that was taken. Fewer than there are packets only where more would have been taken
    /// than are at most.
    pub handled: Vec<Handled>,
    pub ghost fewer: { length handled.items ≤ length packets.items },
}

/// What became of a packet, and what was sent for it.
#[derive(Drop)]
struct Step {
    handled: Handled,
    sent: Vec<SentPacket>,
}

impl<'a, T: Terminus> EmulatedNetwork<'a, T> {
    ghost use Rattle.std.specs.Prelude.{List, MatchOption};
    ghost use Rattle.emulated_node.{specs.Emulations.{world_of}, specs.Networks.{Becomes, GoesInside, IsTakenIn, Spreads, StepValue}};

    /// A network of the nodes of a plan, each at its index, but for one that isn't emulated.
    pub fn new(
        alloc: Global,
        plan: &'a Plan,
        outside: usize,
        nodes: Vec<Emulated<'a, T>>,
    ) -> EmulatedNetwork<'a, T>
        requires { (n : ℕ) (set : Setting) → slice_get (map setting_of nodes.items) n ≡ Some set → set.plan ≡ plan.now }
        ensures world { world_of result ≡ record { plan = plan.now; settings = map setting_of nodes.entry.items; outside = outside } }
        ensures nodes { result.nodes.items ≡ nodes.entry.items }
    {
        EmulatedNetwork {
            alloc,
            plan,
            outside,
            nodes,
        }
    }

    /// The plan of the network.
    pub fn plan(&self) -> &'a Plan
        ensures { result.now ≡ (world_of self.now).plan }
    {
        self.plan
    }

    /// Sends a packet, and all that is sent for it, in the order in which it is sent. Where memory runs out, some of it
    /// may be lost.
    pub fn spread(&mut self, put: SentPacket) -> Result<Spread, AllocError>
        ensures world { world_of self.new ≡ world_of self.old }
        ensures spreads { IfOk result (λ spread. (s : States) → HaveStates T.tid T.records self.old.nodes.items s
            → (steps : List StepValue) × (last : States) × Spreads (world_of self.old) s (sent_value put) (map sent_value spread.packets.items) steps last
            × (map (λ t. t.handled) steps ≡ spread.handled.items) × HaveStates T.tid T.records self.new.nodes.items last) }
    {
        let mut packets = Vec::new(self.alloc);
        packets.push(put)?;
        let mut handled = Vec::new(self.alloc);
        for index in 0..MOST_PACKETS {
            if index == packets.len() {
                return Ok(Spread { packets, handled });
            }
            let mut step = self.step(&packets[index])?;
            packets.append(&mut step.sent)?;
            handled.push(step.handled)?;
        }
        Ok(Spread { packets, handled })
    }

    /// Lets a packet reach the node to which it goes.
    fn step(&mut self, packet: &SentPacket) -> Result<Step, AllocError>
        ensures world { world_of self.new ≡ world_of self.old }
        ensures becomes { IfOk result (λ step. (s : States) → HaveStates T.tid T.records self.old.nodes.items s
            → (last : States) × Becomes (world_of self.old) s (sent_value packet.now) step.handled (map sent_value step.sent.items) last
            × HaveStates T.tid T.records self.new.nodes.items last) }
    {
        let Some(node) = self.receiver(packet) else {
            return Ok(alone(self.alloc, Handled::Out));
        };
        if packet.hops > MOST_HOPS {
            return Ok(alone(self.alloc, Handled::Worn));
        }
        match PacketView::read_within(&packet.bytes, usize::from(self.plan.unit)) {
            Ok(frame) => self.take_in(node, packet, frame),
            Err(why) => Ok(alone(self.alloc, Handled::NoPacket(why))),
        }
    }

    /// Lets a node take a packet in.
    fn take_in(
        &mut self,
        node: usize,
        packet: &SentPacket,
        frame: PacketView,
    ) -> Result<Step, AllocError>
        requires node { node < length self.old.nodes.items }
        requires goes { (set : Setting) × GoesInside (world_of self.old) (sent_value packet.now) node set }
        requires few { packet.now.hops ≤ 64 }
        requires spelled { Spelled self.old.plan.now.unit (packet_value_of frame) packet.now.bytes.items }
        ensures world { world_of self.new ≡ world_of self.old }
        ensures becomes { IfOk result (λ step. (s : States) → HaveStates T.tid T.records self.old.nodes.items s
            → (last : States) × Becomes (world_of self.old) s (sent_value packet.now) step.handled (map sent_value step.sent.items) last
            × HaveStates T.tid T.records self.new.nodes.items last) }
    {
        let asked = frame.header.destination;
        match receive_at(&mut self.nodes, node, packet.way.bus, frame)? {
            Received::Sent { packets, .. } => Ok(Step {
                handled: Handled::Sent,
                sent: sent_on(self.alloc, &self.nodes[node], packet, asked, packets)?,
            }),
            Received::Held => Ok(alone(self.alloc, Handled::Held)),
            Received::Dropped(why) => Ok(alone(self.alloc, Handled::Dropped(why))),
        }
    }

    /// The emulated node to which a packet goes, if one does.
    fn receiver(&self, packet: &SentPacket) -> Option<usize>
        ensures { MatchOption result ((n : ℕ) (set : Setting) → ¬ GoesInside (world_of self.now) (sent_value packet.now) n set)
            (λ n. (n < length self.now.nodes.items) × ((set : Setting) × GoesInside (world_of self.now) (sent_value packet.now) n set)) }
    {
        match packet.way.next {
            Some(node) => {
                if node == self.outside
                    || node >= self.nodes.len()
                    || packet.way.bus >= self.plan.buses.len()
                {
                    return None;
                }
                Some(node)
            }
            None => None,
        }
    }
}

/// Gives a packet that came over a bus to one of the nodes.
fn receive_at<T: Terminus>(
    nodes: &mut Vec<Emulated<T>>,
    node: usize,
    bus: usize,
    frame: PacketView,
) -> Result<Received, AllocError>
    requires node { node < length nodes.old.items }
    requires bus { (set : Setting) → slice_get (map setting_of nodes.old.items) node ≡ Some set → bus < length set.plan.buses.items }
    ensures settings { map setting_of nodes.new.items ≡ map setting_of nodes.old.items }
    ensures receives { IfOk result (λ received. (s : States) (set : Setting) → HaveStates T.tid T.records nodes.old.items s
        → slice_get (map setting_of nodes.old.items) node ≡ Some set
        → (next : NodeState) × Receives set (s node) bus (packet_value_of frame.entry) (received_value received) next
        × HaveStates T.tid T.records nodes.new.items (with_state s node next)) }
{
    nodes[node].receive(bus, frame)
}

/// Nothing is sent.
fn alone(alloc: Global, handled: Handled) -> Step
    ensures handled { result.handled ≡ handled }
    ensures sent { result.sent.items ≡ [] }
{
    Step {
        handled,
        sent: Vec::new(alloc),
    }
}

/// What a node sends for a packet to `asked`, each packet with its way.
fn sent_on<T: Terminus>(
    alloc: Global,
    node: &Emulated<T>,
    packet: &SentPacket,
    asked: Eid,
    packets: Vec<Vec<u8>>,
) -> Result<Vec<SentPacket>, AllocError>
    requires { packet.now.hops < 255 }
    ensures { IfOk result (λ sent. map sent_value sent.items
        ≡ map (sent_on (setting_of node.now) (sent_value packet.now) asked.value) (map (λ p. p.items) packets.items)) }
{
    let mut sent = Vec::new(alloc);
    for bytes in packets {
        let destination = destination_of(&bytes);
        sent.push(SentPacket {
            way: node.way(packet.way.bus, asked, destination),
            hops: hops_of(asked, destination, packet.hops),
            bytes,
        })?;
    }
    Ok(sent)
}

/// The destination of a packet's bytes.
pub fn destination_of(packet: &[u8]) -> Eid
    ensures { result.value ≡ slice_index packet.now 1 }
{
    match packet {
        [_, destination, ..] => Eid::new(*destination),
        _ => Eid::new(0),
    }
}

/// How often a packet to `destination` was sent on that is sent for one to `asked`.
fn hops_of(asked: Eid, destination: Eid, hops: u8) -> u8
    requires { hops < 255 }
    ensures { result ≡ hops_of asked.value destination.value hops }
{
    if destination.value == asked.value {
        hops + 1
    } else {
        0
    }
}
