//! The termini of nodes, and the messages that wait at them.
ghost use Rattle.std.{specs.Prelude.{◌≡◌, ◌≢◌, ◌↔◌, ◌<◌, ◌≤◌, [], length, vec_capacity, option_map, All, IsTrue, OnOk, OnErr, IfOk, IfSome, IfNone, Some}, specs.VecDeque.{deque_len, deque_capacity}};
ghost use Rattle.mctp_transport.specs.Packets.{key_value};
ghost use Rattle.net_runs.specs.Termini.{with_waiting};
ghost use Rattle.net_sim.{specs.TerminusQueues.{queue_state, with_message, HasRoomFor, AnswersOldest, IsIdle, IsIdleFor}, specs.Settling.{NoneWaits}};
ghost use Rattle.pdr_repository.specs.Answers.{Answers, answer_of};

use crate::receiving::kept;
use crate::refusal::Refusal;
use crate::waiting::{Waiting, WaitingMessages};
use arrayvec::ArrayVec;
use mctp_transport::Key;
use pdr_repository::{MAX_ANSWER, Terminus};
use plan_values::Node;
use std::alloc::{AllocError, Global};

/// The terminus of a node, and the messages that wait there, oldest first.
#[derive(Drop)]
pub struct TerminusQueue<T> {
    terminus: T,
    waiting: WaitingMessages,
}

/// What was asked: the key of the message, and whether it has an answer.
#[derive(Clone, Copy, Debug)]
pub struct Asked {
    pub key: Key,
    pub answered: bool,
}

impl<T: Terminus> TerminusQueue<T> {
    /// A terminus at which nothing waits, in a network of these nodes.
    pub fn new(alloc: Global, nodes: &[Node], terminus: T) -> Result<TerminusQueue<T>, AllocError>
        ensures terminus { IfOk result (λ queue. queue.terminus ≡ terminus) }
        ensures waiting { IfOk result (λ queue. queue.waiting.messages.items ≡ []) }
    {
        Ok(TerminusQueue {
            terminus,
            waiting: WaitingMessages::none(alloc, nodes)?,
        })
    }

    /// Takes the oldest message off, if there is one, and asks the terminus.
    fn answer_oldest(&mut self, out: &mut ArrayVec<u8, MAX_ANSWER>) -> Option<Asked>
        ensures none { IfNone result (self.old.waiting.messages.items ≡ []) }
        ensures asked { IfSome result (λ asked. AnswersOldest (Some (queue_state T.tid T.records self.old))
            (key_value asked.key) (answer_of asked.answered out.new.items)
            (Some (queue_state T.tid T.records self.new))) }
    {
        let oldest = self.waiting.take_oldest()?;
        let answered = self.terminus.answer(&oldest.bytes, out);
        Some(Asked {
            key: oldest.key,
            answered,
        })
    }

    /// Whether no message of the key waits.
    fn none_waits(&self, key: Key) -> bool
        ensures { IsTrue result ↔ All (λ message. key_value message.key ≢ key_value key) self.now.waiting.messages.items }
    {
        self.waiting.has_none(key)
    }

    /// Makes room for a message more.
    pub fn reserve(&mut self) -> Result<(), AllocError>
        ensures state { queue_state T.tid T.records self.new
            ≡ queue_state T.tid T.records self.old }
        ensures room { OnOk result (deque_len self.new.waiting.messages < deque_capacity self.new.waiting.messages) }
        ensures full { OnErr result (¬ (deque_len self.old.waiting.messages < deque_capacity self.old.waiting.messages)) }
        ensures lacks { OnErr result (¬ (deque_len self.new.waiting.messages < deque_capacity self.new.waiting.messages)) }
    {
        self.waiting.reserve()
    }

    /// Lets a message wait, which is kept, in the room at worst.
    pub fn wait(&mut self, alloc: Global, key: Key, bytes: &[u8], room: Vec<u8>)
        requires room { deque_len self.old.waiting.messages < deque_capacity self.old.waiting.messages }
        requires empty { room.items ≡ [] }
        ensures { length bytes.now ≤ vec_capacity room → queue_state T.tid T.records self.new
            ≡ with_waiting (queue_state T.tid T.records self.old) (record { key = key_value key; bytes = bytes.now }) }
    {
        let bytes = kept(alloc, bytes, room);
        self.waiting.push(Waiting { key, bytes });
    }
}

/// Why nothing is asked there: there is no terminus, or nothing waits.
pub fn idle_at<T: Terminus>(queue: &Option<TerminusQueue<T>>) -> Option<Refusal>
    ensures { IsIdleFor (option_map (queue_state T.tid T.records) queue.now) result }
{
    match queue {
        None => Some(Refusal::NoTerminus),
        Some(queue) => {
            if queue.waiting.is_empty() {
                Some(Refusal::NothingWaits)
            } else {
                None
            }
        }
    }
}

/// Takes the oldest message off, where there is one, and asks the terminus. Its answer is written into `out`: the key
/// of the message is told, and whether there is an answer.
pub fn answer_at<T: Terminus>(
    queue: &mut Option<TerminusQueue<T>>,
    out: &mut ArrayVec<u8, MAX_ANSWER>,
) -> Option<Asked>
    ensures none { IfNone result (IsIdle (option_map (queue_state T.tid T.records) queue.old)) }
    ensures asked { IfSome result (λ asked. AnswersOldest (option_map (queue_state T.tid T.records) queue.old)
        (key_value asked.key) (answer_of asked.answered out.new.items)
        (option_map (queue_state T.tid T.records) queue.new)) }
{
    queue.as_mut()?.answer_oldest(out)
}

/// Whether no message of the key waits there.
pub fn none_waits_at<T: Terminus>(queue: &Option<TerminusQueue<T>>, key: Key) -> bool
    ensures { IsTrue result ↔ NoneWaits (key_value key) (option_map (queue_state T.tid T.records) queue.now) }
{
    match queue {
        Some(queue) => queue.none_waits(key),
        None => true,
    }
}

/// Makes room for a message more, where there is a terminus.
pub fn reserve_at<T: Terminus>(queue: &mut Option<TerminusQueue<T>>) -> Result<(), AllocError>
    ensures state { option_map (queue_state T.tid T.records) queue.new
        ≡ option_map (queue_state T.tid T.records) queue.old }
    ensures room { OnOk result (HasRoomFor queue.new) }
    ensures full { OnErr result (¬ HasRoomFor queue.old) }
    ensures lacks { OnErr result (¬ HasRoomFor queue.new) }
{
    match queue {
        Some(queue) => queue.reserve(),
        None => Ok(()),
    }
}

/// Lets a message whose source owns the tag wait, where there is a terminus. It is kept, in the room at worst.
pub fn wait_at<T: Terminus>(
    alloc: Global,
    queue: &mut Option<TerminusQueue<T>>,
    key: Key,
    bytes: &[u8],
    room: Vec<u8>,
)
    requires room { HasRoomFor queue.old }
    requires empty { room.items ≡ [] }
    ensures { length bytes.now ≤ vec_capacity room → option_map (queue_state T.tid T.records) queue.new
        ≡ with_message (record { key = key_value key; bytes = bytes.now })
        (option_map (queue_state T.tid T.records) queue.old) }
{
    if key.owner
        && let Some(queue) = queue
    {
        queue.wait(alloc, key, bytes, room);
    }
}
