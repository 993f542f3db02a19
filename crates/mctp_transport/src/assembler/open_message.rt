//! A message of which some packets have come.
ghost use Rattle.std.specs.Prelude.{◌≡◌, ◌≤◌, ◌+◌, length, IfOk, MatchResult, Some, None};
ghost use Rattle.mctp_transport.specs.KeyNumbers.{IsGoneOnFrom};

use crate::address::{Key, Seq};
use crate::drop_cause::DropCause;
use crate::packet::PacketView;

/// A message whose last packet has yet to come. Its bytes so far lie at the front of its slot's part of the block.
#[derive(Clone, Copy, Debug)]
pub(super) struct OpenMessage {
    pub(super) key: Key,
    /// The number of its last packet so far.
    pub(super) number: Seq,
    /// The length of its first packet's payload.
    pub(super) unit: usize,
    /// How many bytes have come.
    pub(super) len: usize,
}

/// Makes the message that is open in a slot this one, which has a packet more: its sequence number and its length are
/// written.
pub(super) fn go_on_as(slot: &mut Option<OpenMessage>, message: OpenMessage)
    requires { IsGoneOnFrom message slot.old }
    ensures { slot.new ≡ Some message }
{
    if let Some(open) = slot {
        open.number = message.number;
        open.len = message.len;
    }
}

impl OpenMessage {
    ghost use Rattle.mctp_transport.{specs.Packets.{packet_value_of}, specs.TableChanges.{fault_of}};

    /// The message with one more packet, or why the packet doesn't go on from it.
    pub(super) fn next(self, limit: usize, packet: &PacketView) -> Result<OpenMessage, DropCause>
        requires { self.len ≤ limit }
        ensures fault { let fault = fault_of limit self.number.value self.unit self.len (packet_value_of packet.now) in
            MatchResult result (λ _. fault ≡ None) (λ why. fault ≡ Some why) }
        ensures key { IfOk result (λ next. next.key ≡ self.key) }
        ensures number { IfOk result (λ next. next.number ≡ packet.now.header.number) }
        ensures unit { IfOk result (λ next. next.unit ≡ self.unit) }
        ensures len { IfOk result (λ next. next.len ≡ self.len + length packet.now.payload.now) }
        ensures fits { IfOk result (λ next. next.len ≤ limit) }
    {
        let len = packet.payload.len();
        if packet.header.number != self.number.next() {
            return Err(DropCause::Number);
        }
        if len > self.unit || (!packet.header.eom && len < self.unit) {
            return Err(DropCause::Length);
        }
        if len > limit - self.len {
            return Err(DropCause::Limit);
        }
        Ok(OpenMessage {
            number: packet.header.number,
            len: self.len + len,
            ..self
        })
    }
}
