//! Devices, and how they answer requests (DSP0236, "MCTP control messages").
ghost use Rattle.std.specs.Prelude.{◌≡◌, ◌<◌, ◌≤◌, ℕ, List, length};
ghost use Rattle.mctp_control.{specs.EntryLists.{values_of}, specs.Replies.{reply_bytes}, specs.Outcomes.{content_of, content_bytes}, specs.Responses.{answer_value}};

use crate::command_number::CommandNumber;
use crate::eid_range::EidRange;
use crate::operations::{AllocateOperation, SetOperation};
use crate::replies::{MAX_BODY, concluded, framed, tell_entries};
use crate::request::{ControlCommand, Request};
use crate::response::{CompletionCode, ControlAnswer};
use crate::route_entry::RouteEntry;
use crate::statuses::{
    Acceptance, Allocation, EidType, EndpointStatus, EndpointType, PoolStatus, SetStatus,
};
use arrayvec::ArrayVec;
use mctp_transport::{DeviceKind, Eid, Wire};

/// An EID that is held, and the bus that gave it; None where the device was configured with it.
#[derive(Clone, Copy, Debug, PartialEq, Eq)]
struct HeldEid {
    eid: Eid,
    giver: Option<u8>,
}

/// A pool that is held, and the bus that gave it; None where the device was configured with it.
#[derive(Clone, Copy, Debug, PartialEq, Eq)]
struct HeldPool {
    range: EidRange,
    giver: Option<u8>,
}

/// A device that answers requests: what it is, the EID that it holds, the size of the pool that it wants, and the
/// pool that it holds. None of its calls takes memory.
#[derive(Clone, Copy, Debug, PartialEq, Eq)]
pub struct Device {
    kind: DeviceKind,
    eid: Option<HeldEid>,
    wants: u8,
    pool: Option<HeldPool>,
}

impl Device {
    ghost use Rattle.std.specs.Prelude.{◌↔◌, ◌∷◌, ◌<◌, ◌+◌, ◌*◌, ℕ, List, [], length, IsTrue, Some, option_map};
    ghost use Rattle.mctp_transport.specs.PacketValues.{IsAssignable};
    ghost use Rattle.mctp_control.{specs.Numbers.{set_number, allocate_number, acceptance_number, allocation_number}, specs.Requests.{command_value}, specs.Devices.{device_value, configured_pool, size_of, present_eid, present_size, present_first, MayGiveEid, MayGivePool, allocation_of, pool_wanted, endpoint_type}, specs.Replies.{Replies, SetReplies, AllocateReplies, CommandReplies, Supports}};

    /// An endpoint that holds no EID.
    pub fn endpoint() -> Self
        ensures { device_value result ≡ record { kind = DeviceKind.Endpoint; eid = None; wants = 0; pool = None } }
    {
        Device {
            kind: DeviceKind::Endpoint,
            eid: None,
            wants: 0,
            pool: None,
        }
    }

    /// A bridge that holds no EID and wants a pool of `wants` EIDs.
    pub fn bridge(wants: u8) -> Self
        ensures { device_value result ≡ record { kind = DeviceKind.Bridge; eid = None; wants = wants; pool = None } }
    {
        Device {
            kind: DeviceKind::Bridge,
            eid: None,
            wants,
            pool: None,
        }
    }

    /// A device that was configured with an EID in 8 to 254. A bridge may have been configured with a pool as well, and
    /// wants a pool of that size. No bus gave them, so set and allocate are rejected, and force is accepted.
    pub fn configured(kind: DeviceKind, eid: Eid, pool: Option<EidRange>) -> Self
        requires assignable { IsAssignable eid.value }
        requires pool { kind ≡ DeviceKind.Endpoint → pool ≡ None }
        ensures { device_value result
            ≡ record { kind = kind; eid = Some (record { eid = eid.value; giver = None }); wants = size_of pool; pool = configured_pool pool } }
    {
        Device {
            kind,
            eid: Some(HeldEid { eid, giver: None }),
            wants: pool.map_or(0, |range| range.size),
            pool: pool.map(|range| HeldPool { range, giver: None }),
        }
    }

    /// The EID that the device holds, if any.
    pub fn eid(&self) -> Option<Eid>
        ensures { option_map (λ e. e.value) result ≡ option_map (λ h. h.eid) (device_value self.now).eid }
    {
        self.eid.map(|held| held.eid)
    }

    /// The pool that the device holds, if any.
    pub fn pool(&self) -> Option<EidRange>
        ensures { option_map {U = ℕ × ℕ} (λ r. (r.first.value, r.size)) result
            ≡ option_map {U = ℕ × ℕ} (λ h. (h.first, h.size)) (device_value self.now).pool }
    {
        self.pool.map(|held| held.range)
    }

    /// The size of the pool that the device wants; an endpoint wants none.
    fn pool_wanted(&self) -> u8
        ensures { result ≡ pool_wanted self.now.kind self.now.wants }
    {
        match self.kind {
            DeviceKind::Endpoint => 0,
            DeviceKind::Bridge => self.wants,
        }
    }

    /// The allocation status of Set Endpoint ID.
    fn allocation(&self) -> Allocation
        ensures { allocation_number result ≡ allocation_of (pool_wanted self.now.kind self.now.wants) (device_value self.now).pool }
    {
        match (self.pool_wanted(), self.pool) {
            (0, _) => Allocation::NoPool,
            (_, None) => Allocation::Required,
            (_, Some(_)) => Allocation::Received,
        }
    }

    /// The EID that is held, 0 for none.
    fn present_eid(&self) -> Eid
        ensures { result.value ≡ present_eid (device_value self.now).eid }
    {
        self.eid.map_or(Eid::new(0), |held| held.eid)
    }

    /// What answers Allocate Endpoint IDs: whether the pool was taken, and the pool that is held now, of size 0 and
    /// from EID 0 for none.
    fn pool_told(&self, acceptance: Acceptance) -> ControlAnswer
        ensures { content_bytes (answer_value result) ≡ 0 ∷ acceptance_number acceptance
            ∷ present_size (device_value self.now).pool ∷ present_first (device_value self.now).pool ∷ [] }
    {
        let (size, first) = match self.pool {
            Some(held) => (held.range.size, held.range.first),
            None => (0, Eid::new(0)),
        };
        ControlAnswer::AllocateEndpointIds {
            status: PoolStatus::new(acceptance),
            size,
            first,
        }
    }

    /// Whether the bus may give an EID: none is held, or the same bus gave it.
    fn may_give_eid(&self, bus: u8) -> bool
        ensures { IsTrue result ↔ MayGiveEid (device_value self.now).eid bus }
    {
        match self.eid {
            Some(held) => held.giver == Some(bus),
            None => true,
        }
    }

    /// Whether the bus may give a pool: none is held, or the same bus gave it.
    fn may_give_pool(&self, bus: u8) -> bool
        ensures { IsTrue result ↔ MayGivePool (device_value self.now).pool bus }
    {
        match self.pool {
            Some(held) => held.giver == Some(bus),
            None => true,
        }
    }

    /// Set Endpoint ID.
    fn set_eid(
        &mut self,
        bus: u8,
        operation: SetOperation,
        eid: Eid,
    ) -> Result<ControlAnswer, CompletionCode>
        ensures { SetReplies (device_value self.old) bus (set_number operation) eid.value (content_of result) (device_value self.new) }
    {
        if !eid.is_assignable() {
            return Err(CompletionCode::INVALID_DATA);
        }
        let accepted = match operation {
            SetOperation::Set => self.may_give_eid(bus),
            SetOperation::Force => true,
            SetOperation::Reset | SetOperation::SetDiscovered => {
                return Err(CompletionCode::INVALID_DATA);
            }
        };
        if !accepted {
            return Ok(self.eid_set(Acceptance::Rejected));
        }
        self.eid = Some(HeldEid {
            eid,
            giver: Some(bus),
        });
        Ok(self.eid_set(Acceptance::Accepted))
    }

    /// What answers Set Endpoint ID: whether the EID was taken, the EID that is held now, and the pool that is wanted.
    fn eid_set(&self, acceptance: Acceptance) -> ControlAnswer
        ensures { content_bytes (answer_value result) ≡ 0
            ∷ (16 * acceptance_number acceptance + allocation_of (pool_wanted self.now.kind self.now.wants) (device_value self.now).pool)
            ∷ present_eid (device_value self.now).eid ∷ pool_wanted self.now.kind self.now.wants ∷ [] }
    {
        ControlAnswer::SetEndpointId {
            status: SetStatus::new(acceptance, self.allocation()),
            eid: self.present_eid(),
            size: self.pool_wanted(),
        }
    }

    /// Get Endpoint ID.
    fn get_eid(&self) -> ControlAnswer
        ensures { content_bytes (answer_value result) ≡ 0 ∷ present_eid (device_value self.now).eid ∷ endpoint_type self.now.kind ∷ 0 ∷ [] }
    {
        let endpoint_type = match self.kind {
            DeviceKind::Endpoint => EndpointType::Simple,
            DeviceKind::Bridge => EndpointType::Bridge,
        };
        ControlAnswer::GetEndpointId {
            eid: self.present_eid(),
            status: EndpointStatus::new(endpoint_type, EidType::Dynamic),
            medium: 0,
        }
    }

    /// Allocate Endpoint IDs.
    fn allocate(
        &mut self,
        bus: u8,
        operation: AllocateOperation,
        first: Eid,
        size: u8,
    ) -> Result<ControlAnswer, CompletionCode>
        ensures { AllocateReplies (device_value self.old) bus (allocate_number operation) size first.value (content_of result) (device_value self.new) }
    {
        let accepted = match operation {
            AllocateOperation::Allocate => self.may_give_pool(bus),
            AllocateOperation::Force => true,
            AllocateOperation::GetInformation => return Ok(self.pool_told(Acceptance::Accepted)),
            AllocateOperation::Reserved => return Err(CompletionCode::INVALID_DATA),
        };
        let range = EidRange::of(first, size).ok_or(CompletionCode::INVALID_DATA)?;
        if !accepted {
            return Ok(self.pool_told(Acceptance::Rejected));
        }
        self.pool = Some(HeldPool {
            range,
            giver: Some(bus),
        });
        Ok(self.pool_told(Acceptance::Accepted))
    }

    /// Whether the device knows the command.
    fn supports(&self, number: u8) -> bool
        ensures { IsTrue result ↔ Supports self.now.kind number }
    {
        match CommandNumber::of(number) {
            Some(CommandNumber::SetEndpointId | CommandNumber::GetEndpointId) => true,
            Some(_) => self.kind == DeviceKind::Bridge,
            None => false,
        }
    }

    /// What the device answers to the body of a control message that comes over the bus, with the entries of its
    /// routing table in order. The table has at most 254 entries.
    ///
    /// The answer is None, and nothing has changed, where the body asks for no response: it has fewer than 3 bytes,
    /// byte 0 is not 0x00, the Rq bit is clear or the D bit set.
    pub fn answer(
        &mut self,
        bus: u8,
        table: &[RouteEntry],
        body: &[u8],
    ) -> Option<ArrayVec<u8, MAX_BODY>>
        requires { length table.now < 255 }
        ensures { Replies (device_value self.old) bus (values_of table.now) body.now (option_map (λ r. r.items) result) (device_value self.new) }
    {
        let [0, header, number, ..] = body else {
            return None;
        };
        if header / 64 != 2 {
            return None;
        }
        if !self.supports(*number) {
            return Some(framed(body, &[CompletionCode::UNSUPPORTED_COMMAND.code]));
        }
        match Request::read(body) {
            Ok(request) => Some(self.respond(bus, table, body, request.command)),
            Err(_) => Some(framed(body, &[CompletionCode::INVALID_LENGTH.code])),
        }
    }

    /// The reply to a command that the device supports.
    fn respond(
        &mut self,
        bus: u8,
        table: &[RouteEntry],
        body: &[u8],
        command: ControlCommand,
    ) -> ArrayVec<u8, MAX_BODY>
        requires body { 3 ≤ length body.now }
        requires table { length table.now < 255 }
        ensures { (content : List ℕ) × (result.items ≡ reply_bytes body.now content)
            × CommandReplies (device_value self.old) bus (values_of table.now) (command_value command) content (device_value self.new) }
    {
        match command {
            ControlCommand::SetEndpointId { operation, eid, .. } => {
                concluded(body, &self.set_eid(bus, operation, eid))
            }
            ControlCommand::GetEndpointId => concluded(body, &Ok(self.get_eid())),
            ControlCommand::AllocateEndpointIds {
                operation,
                size,
                first,
                ..
            } => concluded(body, &self.allocate(bus, operation, first, size)),
            ControlCommand::GetRoutingTableEntries { handle } => tell_entries(body, table, handle),
        }
    }
}
