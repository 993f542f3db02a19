//! Messages that wait at a terminus.
ghost use Rattle.std.{specs.Prelude.{◌≡◌, ◌≢◌, ◌↔◌, ◌<◌, ◌++◌, ◌∷◌, [], All, IsTrue, OnOk, OnErr, IfOk, MatchOption}, specs.VecDeque.{deque_len, deque_capacity}};
ghost use Rattle.mctp_transport.specs.Packets.{key_value};
ghost use Rattle.net_sim.specs.Tallies.{AreCounted};

use crate::key_counts::{KeyCounts, KnownEids};
use mctp_transport::{Eid, Key};
use plan_values::Node;
use std::alloc::{AllocError, Global};
use std::collections::VecDeque;

/// The fewest messages for which the list grows.
const FEWEST: usize = 4;

/// A message that waits for an answer, and the key of its packets.
#[derive(Debug, Drop)]
pub struct Waiting {
    pub key: Key,
    pub bytes: Vec<u8>,
}

/// The messages that wait at a terminus, oldest first. How many there are of each key is counted, so that no search is
/// needed to tell whether there is one.
#[derive(Debug, Drop)]
pub struct WaitingMessages {
    messages: VecDeque<Waiting>,
    counts: KeyCounts,
    ghost tallied: { AreCounted counts messages.items },
}

impl WaitingMessages {
    /// No messages, in a network of these nodes.
    pub fn none(alloc: Global, nodes: &[Node]) -> Result<WaitingMessages, AllocError>
        ensures { IfOk result (λ waiting. waiting.messages.items ≡ []) }
    {
        let sources = KnownEids::of_nodes(alloc, nodes)?;
        let destinations = KnownEids::of(alloc, vec![in alloc; here()]?)?;
        Ok(WaitingMessages {
            messages: VecDeque::new(alloc),
            counts: KeyCounts::none(alloc, sources, destinations)?,
        })
    }

    /// Whether no message waits.
    pub fn is_empty(&self) -> bool
        ensures { IsTrue result ↔ (self.now.messages.items ≡ []) }
    {
        self.messages.is_empty()
    }

    /// Takes the oldest message off, if there is one.
    pub fn take_oldest(&mut self) -> Option<Waiting>
        ensures { MatchOption result (self.old.messages.items ≡ []) (λ oldest. self.old.messages.items ≡ oldest ∷ self.new.messages.items) }
    {
        let oldest = self.messages.pop_front()?;
        self.counts.leave(oldest.key, here());
        Some(oldest)
    }

    /// Whether no message of the key waits. Where no node holds the key's source, the messages are searched.
    pub fn has_none(&self, key: Key) -> bool
        ensures { IsTrue result ↔ All (λ message. key_value message.key ≢ key_value key) self.now.messages.items }
    {
        match self.counts.count(key, here()) {
            Some(count) => count == 0,
            None => self.messages.iter().all(|message| message.key != key),
        }
    }

    /// Makes room for a message more.
    pub fn reserve(&mut self) -> Result<(), AllocError>
        ensures same { self.new.messages.items ≡ self.old.messages.items }
        ensures room { OnOk result (deque_len self.new.messages < deque_capacity self.new.messages) }
        ensures full { OnErr result (¬ (deque_len self.old.messages < deque_capacity self.old.messages)) }
        ensures lacks { OnErr result (¬ (deque_len self.new.messages < deque_capacity self.new.messages)) }
    {
        let len = self.messages.len();
        if len < self.messages.capacity() {
            return Ok(());
        }
        // `reserve` wouldn't say that a refusal leaves the capacity as it was.
        self.messages.reserve_exact(len.max(FEWEST))
    }

    /// Lets a message wait.
    pub fn push(&mut self, message: Waiting)
        requires { deque_len self.old.messages < deque_capacity self.old.messages }
        ensures { self.new.messages.items ≡ self.old.messages.items ++ message ∷ [] }
    {
        self.counts.enter(message.key, here());
        self.messages.push_back_reserved(message);
    }
}

/// What stands for the destination of each message, since all wait at one place.
fn here() -> Eid
    ensures { result.value ≡ 0 }
{
    Eid::new(0)
}
