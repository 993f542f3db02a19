//! Packets in frames of SMBus and I2C (DSP0237).
ghost use Rattle.std.specs.Prelude.{◌≡◌, ◌++◌, ◌∷◌, [], ℕ, List, MatchOption};
ghost use Rattle.bus_captures.{specs.Smbus.{IsNoFrame, IsSmbusFrame, IsOfFrame, IsUnframed, IsFramedOnly}, specs.SmbusValues.{frame_value}};

use crate::capture::{Kind, Unread};
use pdr_repository::crc8;

/// The command code of MCTP.
const COMMAND: u8 = 0x0f;

/// A frame: the addresses of the receiver and of the sender, the packet, and the check byte (PEC).
#[derive(Clone, Copy, Debug)]
struct SmbusFrame<'b> {
    to: u8,
    from: u8,
    packet: &'b [u8],
    pec: u8,
}

/// What is read of bytes that are a frame, or a packet as it is: what it is, and its bytes.
pub fn unframed(bytes: &[u8]) -> (Kind, &[u8])
    ensures { IsUnframed bytes.now result.0 result.1.now }
{
    match split_frame(bytes) {
        Some(frame) => read_frame(bytes, &frame),
        None => (Kind::Packet, bytes),
    }
}

/// What is read of bytes that went over a bus with other frames too.
pub fn framed_only(bytes: &[u8]) -> (Kind, &[u8])
    ensures { IsFramedOnly bytes.now result.0 result.1.now }
{
    match split_frame(bytes) {
        Some(frame) => read_frame(bytes, &frame),
        None => (Kind::Unread(Unread::NoFrame), bytes),
    }
}

/// The packet of a frame, or why it isn't read.
fn read_frame<'b>(bytes: &'b [u8], frame: &SmbusFrame<'b>) -> (Kind, &'b [u8])
    requires { IsSmbusFrame bytes.now (frame_value frame.now) }
    ensures { IsOfFrame bytes.now (frame_value frame.now) result.0 result.1.now }
{
    let computed = crc8(before_last(bytes));
    if frame.pec == computed {
        return (Kind::Packet, frame.packet);
    }
    let told = frame.pec;
    (Kind::Unread(Unread::Pec { told, computed }), bytes)
}

/// All bytes but the last one.
fn before_last(bytes: &[u8]) -> &[u8]
    ensures { (front : List ℕ) (last : ℕ) → bytes.now ≡ front ++ last ∷ [] → result.now ≡ front }
{
    &bytes[..bytes.len().saturating_sub(1)]
}

/// The frame that the bytes are.
fn split_frame(bytes: &[u8]) -> Option<SmbusFrame<'_>>
    ensures { MatchOption result (IsNoFrame bytes.now) (λ f. IsSmbusFrame bytes.now (frame_value f)) }
{
    let [to, COMMAND, count, from, packet @ .., pec] = bytes else {
        return None;
    };
    if to % 2 != 0 || usize::from(*count) != 1 + packet.len() {
        return None;
    }
    Some(SmbusFrame {
        to: *to,
        from: *from,
        packet,
        pec: *pec,
    })
}
