//! A node that is emulated.
ghost use Rattle.std.specs.Prelude.{◌≡◌, ◌<◌, length};
ghost use Rattle.emulated_node.specs.Heard.{AreSized};

use crate::deciding::decide_on;
use crate::hearing::hear_over;
use crate::received::{Reason, Received};
use crate::replying::reply;
use crate::sending::packet_bytes;
use crate::way::{Way, row_way, way_or_back};
use mctp_control::{Device, RouteEntry};
use mctp_routing::{Decision, DeviceKind, Hop, RangeTable};
use mctp_transport::{Assembler, Eid, Heard, PacketView, idle_assemblers};
use net_tables::lookup::bus_at;
use pdr_repository::Terminus;
use plan_values::Plan;
use std::alloc::{AllocError, Global};

/// A node of a plan as a device that answers: it takes packets in, one after another.
///
/// Its device answers control messages with the entries of its routing table, and its terminus all other requests. A
/// bridge sends the packets for others on by its rows. There is an assembler for each bus, of 16 slots for messages of
/// at most 4096 bytes.
#[derive(Drop)]
pub struct Emulated<'a, T> {
    alloc: Global,
    plan: &'a Plan,
    node: usize,
    kind: DeviceKind,
    table: RangeTable,
    entries: Vec<RouteEntry>,
    device: Device,
    assemblers: Vec<Assembler>,
    terminus: Option<T>,
    ghost few: { length entries.items < 255 },
    ghost many: { length assemblers.items ≡ length plan.now.buses.items },
    ghost sized: { AreSized assemblers.items },
}

impl<'a, T: Terminus> Emulated<'a, T> {
    ghost use Rattle.std.specs.Prelude.{IfOk, option_map};
    ghost use Rattle.mctp_control.{specs.Devices.{device_value}, specs.EntryLists.{values_of}};
    ghost use Rattle.mctp_transport.specs.Packets.{packet_value_of};
    ghost use Rattle.emulated_node.{specs.Nodes.{NodeState}, specs.ReceivedValues.{received_value}, specs.Receiving.{IsForNode, IsSentOn, Receives}, specs.Standing.{HasNodeState, setting_of, at_start}, specs.Termini.{terminus_value}, specs.Ways.{way_of}};

    /// A node to which no packet has come yet, with its routing table, the entries that tell it, its device and its
    /// terminus.
    pub fn new(
        alloc: Global,
        plan: &'a Plan,
        node: usize,
        kind: DeviceKind,
        table: RangeTable,
        entries: Vec<RouteEntry>,
        device: Device,
        terminus: Option<T>,
    ) -> Result<Emulated<'a, T>, AllocError>
        requires few { length entries.items < 255 }
        ensures setting { IfOk result (λ emulated. setting_of emulated
            ≡ record { plan = plan.now; node = node; kind = kind; rows = table; entries = values_of entries.items }) }
        ensures stands { IfOk result (λ emulated. HasNodeState T.tid T.records emulated
            (at_start (device_value device) (option_map (terminus_value T.tid T.records) terminus))) }
    {
        let assemblers = idle_assemblers(alloc, plan.buses.len())?;
        Ok(Emulated {
            alloc,
            plan,
            node,
            kind,
            table,
            entries,
            device,
            assemblers,
            terminus,
        })
    }

    /// Takes a packet in that came over a bus, and says what is sent for it. Where memory runs out, the packet may be
    /// lost.
    pub fn receive(&mut self, bus: usize, packet: PacketView) -> Result<Received, AllocError>
        requires { bus < length self.old.plan.now.buses.items }
        ensures setting { setting_of self.new ≡ setting_of self.old }
        ensures receives { IfOk result (λ received. (s : NodeState) → HasNodeState T.tid T.records self.old s
            → (next : NodeState) × Receives (setting_of self.old) s bus (packet_value_of packet.entry) (received_value received) next
            × HasNodeState T.tid T.records self.new next) }
    {
        match decide_on(&self.device, self.kind, &self.table, &packet.header) {
            Decision::Here => self.take_in(bus, packet),
            Decision::Forward(hop) => {
                let received = self.send_on(hop, packet)?;
                Ok(received)
            }
            Decision::Drop(why) => Ok(Received::Dropped(Reason::ForwardFault(why))),
        }
    }

    /// The plan of the node.
    pub fn plan(&self) -> &'a Plan
        ensures { result.now ≡ (setting_of self.now).plan }
    {
        self.plan
    }

    /// The index of the node in the plan's list.
    pub fn node(&self) -> usize
        ensures { result ≡ (setting_of self.now).node }
    {
        self.node
    }

    /// Where a packet to `destination` goes that the node sends for one to `asked`, which came over the bus.
    pub fn way(&self, over: usize, asked: Eid, destination: Eid) -> Way
        ensures { let set = setting_of self.now in
            result ≡ way_of set.plan set.node set.rows over asked.value destination.value }
    {
        let way = row_way(self.plan, self.node, self.table.rows(), destination);
        way_or_back(over, asked, way)
    }

    /// Sends a packet on.
    fn send_on(&self, hop: Hop, packet: PacketView) -> Result<Received, AllocError>
        ensures { IfOk result (λ received. IsSentOn (setting_of self.now) hop (packet_value_of packet.entry) (received_value received)) }
    {
        let Some(bus) = bus_at(self.plan, self.node, hop.port) else {
            return Ok(Received::Dropped(Reason::NoPort));
        };
        let mut packets = Vec::new(self.alloc);
        packets.push(packet_bytes(self.alloc, &packet)?)?;
        Ok(Received::Sent { bus, packets })
    }

    /// Takes in a packet for the node.
    fn take_in(&mut self, bus: usize, packet: PacketView) -> Result<Received, AllocError>
        requires { bus < length self.old.plan.now.buses.items }
        ensures setting { setting_of self.new ≡ setting_of self.old }
        ensures takes { IfOk result (λ received. (s : NodeState) → HasNodeState T.tid T.records self.old s
            → IsForNode (setting_of self.old) s (packet_value_of packet.entry)
            → (next : NodeState) × Receives (setting_of self.old) s bus (packet_value_of packet.entry) (received_value received) next
            × HasNodeState T.tid T.records self.new next) }
    {
        let asked = packet.key();
        let message = match hear_over(self.alloc, &mut self.assemblers, bus, packet)? {
            Heard::Whole(message) => message,
            Heard::Held => return Ok(Received::Held),
            Heard::Dropped(why) => return Ok(Received::Dropped(Reason::Unassembled(why))),
        };
        let received = reply(
            self.alloc,
            usize::from(self.plan.unit),
            &mut self.device,
            &mut self.terminus,
            bus as u8,
            &self.entries,
            asked,
            &message,
        )?;
        Ok(received)
    }
}
