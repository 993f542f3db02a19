//! A walker at a node of a network (DSP0248, section 26.2).
ghost use Rattle.std.specs.Prelude.{◌≡◌, ◌↔◌, ◌≤◌, ◌<◌, ℕ, IsTrue, IfOk, OnOk, OnErr, MatchOption, Some, None, Err, map, true};
ghost use Rattle.pldm_message.{specs.InstanceIds.{TakesBack}, specs.InstanceIdValues.{id_value, ids_of}};
ghost use Rattle.pdr_repository.specs.WalkerStates.{state_of};
ghost use Rattle.mctp_transport.specs.Packets.{key_value};
ghost use Rattle.net_runs.specs.Walkers.{fresh_walker, asking_key, answering_key, ended_after};

use crate::standing::Standing;
use mctp_transport::{Eid, Key, Tag};
use pdr_repository::{MAX_RECORDS, Step, WalkFault, Walker};
use pldm_message::{GetPdrRequest, InstanceId, InstanceIds};
use std::alloc::{AllocError, Global};

/// The most bytes of records that it collects.
const MOST_BYTES: usize = 16_777_216;

/// A walker at a node, which asks the terminus at an endpoint ID for its records under a tag.
#[derive(Drop)]
pub struct NetworkWalker {
    node: usize,
    eid: Eid,
    tag: Tag,
    walker: Walker,
    /// The instance IDs of its requests.
    ids: InstanceIds,
    /// The one of the outstanding request.
    outstanding: Option<InstanceId>,
    /// The fault that ended the walk.
    ended: Option<WalkFault>,
    ghost waits: { id_value outstanding ≡ (state_of walker).waiting },
    ghost alone: { (id : ℕ) → (ids_of ids).out id ≡ true → id_value outstanding ≡ Some id },
}

impl NetworkWalker {
    ghost use Rattle.net_runs.specs.Walkers.{IsOver, standing_of};
    ghost use Rattle.net_sim.{specs.Outcomes.{standing_value}, specs.NetworkWalkers.{walker_value, IsReady, TellsRequest, HasTakenMessage}};

    /// A walker that has asked nothing yet, for parts of at most `count` bytes, 8 to 4079.
    pub fn new(
        alloc: Global,
        node: usize,
        eid: Eid,
        tag: Tag,
        count: u16,
    ) -> Result<Self, AllocError>
        requires { (8 ≤ count) × (count ≤ 4079) }
        ensures { IfOk result (λ walker. walker_value walker ≡ fresh_walker node eid.value tag.value count) }
    {
        let walker = Walker::new(alloc, count, MAX_RECORDS, MOST_BYTES)?;
        let ids = InstanceIds::new();
        Ok(NetworkWalker {
            node,
            eid,
            tag,
            walker,
            ids,
            outstanding: None,
            ended: None,
        })
    }

    /// Whether it is at this node and asks this endpoint ID under this tag.
    pub fn is_at(&self, node: usize, eid: Eid, tag: Tag) -> bool
        ensures { IsTrue result ↔ (((walker_value self.now).node ≡ node) × ((walker_value self.now).eid ≡ eid.value) × ((walker_value self.now).tag ≡ tag.value)) }
    {
        self.node == node && self.eid == eid && self.tag == tag
    }

    /// The node where it is.
    pub fn node(&self) -> usize
        ensures { result ≡ (walker_value self.now).node }
    {
        self.node
    }

    /// The endpoint ID that it asks.
    pub fn eid(&self) -> Eid
        ensures { result.value ≡ (walker_value self.now).eid }
    {
        self.eid
    }

    /// Whether its walk is done or has failed.
    pub fn is_over(&self) -> bool
        ensures { IsTrue result ↔ IsOver (walker_value self.now) }
    {
        self.walker.is_over()
    }

    /// Whether no request of it is outstanding.
    pub fn is_idle(&self) -> bool
        ensures { IsTrue result ↔ ((walker_value self.now).walk.waiting ≡ None) }
    {
        self.outstanding.is_none()
    }

    /// How its walk stands.
    pub fn standing(&self) -> Standing
        ensures { standing_value result ≡ standing_of (walker_value self.now) }
    {
        if let Some(fault) = self.ended {
            return Standing::Ended(fault);
        }
        if self.walker.is_done() {
            Standing::Done
        } else {
            Standing::Open
        }
    }

    /// The key of its requests, where its node has this endpoint ID.
    pub fn asking_key(&self, own: Eid) -> Key
        ensures { key_value result ≡ asking_key own.value (walker_value self.now) }
    {
        Key {
            source: own,
            tag: self.tag,
            owner: true,
        }
    }

    /// The key of the answers to them.
    pub fn answering_key(&self) -> Key
        ensures { key_value result ≡ answering_key (walker_value self.now) }
    {
        Key {
            source: self.eid,
            tag: self.tag,
            owner: false,
        }
    }

    /// The bytes of its request: of the outstanding one again, under its instance ID, or of a new one, which is
    /// outstanding then, under the next ID. None where the walk is over. It takes no memory.
    pub fn next_request(&mut self) -> Option<[u8; GetPdrRequest::LENGTH]>
        ensures { MatchOption result (IsOver (walker_value self.old) × (walker_value self.new ≡ walker_value self.old))
            (λ request. TellsRequest (walker_value self.old) request (walker_value self.new)) }
    {
        if self.walker.is_over() {
            return None;
        }
        let id = match self.outstanding {
            Some(id) => id,
            None => self.ids.take()?,
        };
        self.outstanding = Some(id);
        self.walker.next_request(id)
    }

    /// Makes room for a message, so that the next `take` wants no memory.
    pub fn reserve(&mut self) -> Result<(), AllocError>
        ensures value { walker_value self.new ≡ walker_value self.old }
        ensures room { OnOk result (IsReady self.new) }
        ensures full { OnErr result (¬ IsReady self.old) }
        ensures lacks { OnErr result (¬ IsReady self.new) }
    {
        self.walker.reserve()
    }

    /// Takes a message that came under the key of its answers, where room was made before. The instance ID of the
    /// outstanding request is free again where the message is its answer.
    pub fn take(&mut self, message: &[u8]) -> Result<Step, WalkFault>
        requires { IsReady self.old }
        ensures { HasTakenMessage (walker_value self.old) message.now result (walker_value self.new) }
    {
        match self.walker.take(message) {
            Ok(step) => {
                give_back(&mut self.ids, self.outstanding);
                self.outstanding = None;
                Ok(step)
            }
            Err(fault) => {
                self.ended = ended_by(self.ended, fault);
                Err(fault)
            }
        }
    }

    /// The records that it has collected, by place.
    pub fn records(&self) -> &[Vec<u8>]
        ensures { map (λ v. v.items) result.now ≡ (walker_value self.now).walk.records }
    {
        self.walker.records()
    }
}

/// Gives an ID back, if there is one.
fn give_back(ids: &mut InstanceIds, id: Option<InstanceId>)
    ensures { (k : ℕ) → id_value id ≡ Some k → TakesBack (ids_of ids.old) k (ids_of ids.new) }
{
    if let Some(id) = id {
        ids.give_back(id);
    }
}

/// The fault that has ended a walk, after one more.
fn ended_by(before: Option<WalkFault>, fault: WalkFault) -> Option<WalkFault>
    ensures { result ≡ ended_after before (Err fault) }
{
    match fault {
        WalkFault::FailedBefore | WalkFault::NotAsked => before,
        _ => Some(fault),
    }
}
