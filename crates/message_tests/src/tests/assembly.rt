//! Packets fed one after another, to assemblers of few slots and of short messages.
use mctp_transport::{Assembler, DropCause, Eid, Fed, Key, PacketView, Tag};
use std::test::Fail;

/// What was answered, with a whole message's length for its bytes, which are all the number of their source.
#[derive(Clone, Copy, PartialEq, Eq)]
enum Told {
    Whole(usize),
    /// A message with bytes of another source.
    Mixed,
    Held,
    Dropped(DropCause),
    Unread,
}

/// A call of an assembler, under tag 1 of a source that owns it, and what it answers.
#[derive(Clone, Copy)]
enum Turn {
    /// A packet with 64 payload bytes, of this source and with this flag byte.
    Feed(u8, u8, Told),
    Expire(u8, bool),
    IsOpen(u8, bool),
    OpenSlots(usize),
}

/// Feeds a packet with 64 payload bytes, from this source and with this flag byte.
fn feed(assembler: &mut Assembler, source: u8, flags: u8) -> Told {
    let mut bytes = [source; 68];
    bytes[0] = 1;
    bytes[1] = 9;
    bytes[3] = flags;
    let Ok(packet) = PacketView::read(&bytes) else {
        return Told::Unread;
    };
    match assembler.feed(packet) {
        Fed::Whole(message) => whole_of(source, message),
        Fed::Held => Told::Held,
        Fed::Dropped(why) => Told::Dropped(why),
    }
}

/// What is told of a message that comes whole with a packet of this source.
fn whole_of(source: u8, message: &[u8]) -> Told {
    for byte in message {
        if *byte != source {
            return Told::Mixed;
        }
    }
    Told::Whole(message.len())
}

/// Tag 1 of a source that owns it.
fn key(source: u8) -> Key {
    Key {
        source: Eid::new(source),
        tag: Tag::new(1),
        owner: true,
    }
}

/// Whether the assembler answers this turn's call so.
fn answers(assembler: &mut Assembler, turn: Turn) -> bool {
    match turn {
        Turn::Feed(source, flags, told) => feed(assembler, source, flags) == told,
        Turn::Expire(source, was_open) => assembler.expire(key(source)) == was_open,
        Turn::IsOpen(source, is_open) => assembler.is_open(key(source)) == is_open,
        Turn::OpenSlots(count) => assembler.open_slots() == count,
    }
}

/// The place of the first turn in which the assembler answers otherwise.
fn first_other(assembler: &mut Assembler, turns: &[Turn]) -> Option<usize> {
    for (place, turn) in turns.iter().enumerate() {
        if !answers(assembler, *turn) {
            return Some(place);
        }
    }
    None
}

/// One slot, and messages of 128 bytes at most.
const TURNS: [Turn; 14] = [
    Turn::Feed(8, 0x89, Told::Held),
    Turn::IsOpen(8, true),
    Turn::IsOpen(9, false),
    Turn::OpenSlots(1),
    Turn::Feed(9, 0x89, Told::Dropped(DropCause::Full)),
    Turn::Expire(8, true),
    Turn::OpenSlots(0),
    Turn::Expire(8, false),
    Turn::Feed(9, 0x89, Told::Held),
    Turn::Feed(9, 0x59, Told::Whole(128)),
    Turn::Feed(9, 0x89, Told::Held),
    Turn::Feed(9, 0x19, Told::Held),
    Turn::Feed(9, 0x69, Told::Dropped(DropCause::Limit)),
    Turn::IsOpen(9, false),
];

#[test]
fn slots_and_lengths_have_their_limits(rt: HostRuntime) -> Result<(), Fail> {
    let mut assembler = Assembler::new(rt.alloc(), 1, 128)?;
    assert_eq!(rt; first_other(&mut assembler, &TURNS), None);
    Ok(())
}

/// Two slots, and messages of 192 bytes at most. A number that comes twice ends its message, and what comes behind it is
/// for none. Then two sources send under one tag, by turns.
const NUMBERED: [Turn; 11] = [
    Turn::Feed(8, 0x89, Told::Held),
    Turn::Feed(8, 0x19, Told::Held),
    Turn::Feed(8, 0x19, Told::Dropped(DropCause::Number)),
    Turn::Feed(8, 0x29, Told::Dropped(DropCause::NotOpen)),
    Turn::Feed(8, 0x69, Told::Dropped(DropCause::NotOpen)),
    Turn::Feed(8, 0x89, Told::Held),
    Turn::Feed(9, 0x89, Told::Held),
    Turn::Feed(8, 0x19, Told::Held),
    Turn::Feed(9, 0x59, Told::Whole(128)),
    Turn::Feed(8, 0x69, Told::Whole(192)),
    Turn::OpenSlots(0),
];

#[test]
fn packets_are_joined_by_their_numbers_and_sources(rt: HostRuntime) -> Result<(), Fail> {
    let mut assembler = Assembler::new(rt.alloc(), 2, 192)?;
    assert_eq!(rt; first_other(&mut assembler, &NUMBERED), None);
    Ok(())
}
