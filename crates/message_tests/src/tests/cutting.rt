//! Messages that are cut, as the bytes of their packets.
use mctp_transport::{
    BASELINE_UNIT, Eid, HEADER_LENGTH, Key, MAX_MESSAGE, MAX_UNIT, Packets, Seq, Tag,
};

/// The flag byte of the next packet to 9 from 8, written, and how many payload bytes come after it.
fn next_written(packets: &mut Packets) -> Option<(u8, usize)> {
    let packet = packets.next()?;
    let mut out = [0; HEADER_LENGTH + MAX_UNIT];
    let len = packet.put(&mut out);
    if &out[..3] != [0x01, 0x09, 0x08].as_slice() {
        return None;
    }
    Some((out[3], len - HEADER_LENGTH))
}

/// Whether the packets have these flag bytes and payload lengths, and no more come.
fn are_packets(mut packets: Packets, wanted: &[(u8, usize)]) -> bool {
    for row in wanted {
        if next_written(&mut packets) != Some(*row) {
            return false;
        }
    }
    next_written(&mut packets).is_none()
}

/// A unit, the length of a message, and the flag bytes and payload lengths of its packets.
type Row = (usize, usize, &'static [(u8, usize)]);

const ROWS: [Row; 11] = [
    (64, 1, &[(0xc9, 1)]),
    (64, 64, &[(0xc9, 64)]),
    (64, 65, &[(0x89, 64), (0x59, 1)]),
    (64, 130, &[(0x89, 64), (0x19, 64), (0x69, 2)]),
    // the packet after that of number 3 has the number 0
    (
        64,
        384,
        &[
            (0x89, 64),
            (0x19, 64),
            (0x29, 64),
            (0x39, 64),
            (0x09, 64),
            (0x59, 64),
        ],
    ),
    (100, 250, &[(0x89, 100), (0x19, 100), (0x69, 50)]),
    (128, 128, &[(0xc9, 128)]),
    (128, 130, &[(0x89, 128), (0x59, 2)]),
    (1024, 1, &[(0xc9, 1)]),
    (1024, 1025, &[(0x89, 1024), (0x59, 1)]),
    (
        1024,
        4096,
        &[(0x89, 1024), (0x19, 1024), (0x29, 1024), (0x79, 1024)],
    ),
];

/// Whether a message is cut so under the unit, and a copy of what is left after the first packet gives the others.
fn is_cut_so(unit: usize, message: &[u8], wanted: &[(u8, usize)]) -> bool {
    if unit < BASELINE_UNIT
        || MAX_UNIT < unit
        || message.is_empty()
        || MAX_MESSAGE < message.len()
    {
        return false;
    }
    let key = Key {
        source: Eid::new(8),
        tag: Tag::new(1),
        owner: true,
    };
    let mut packets = Packets::within(unit, message, Eid::new(9), key, Seq::new(0));
    let Some((first, others)) = wanted.split_first() else {
        return false;
    };
    if next_written(&mut packets) != Some(*first) {
        return false;
    }
    match packets.clone() {
        Ok(copy) => are_packets(packets, others) && are_packets(copy, others),
        Err(_) => false,
    }
}

/// The unit and the length of the first message that is cut otherwise.
fn first_other(rows: &[Row]) -> Option<(usize, usize)> {
    let message = [7; MAX_MESSAGE];
    for (unit, length, wanted) in rows {
        match message.get(..*length) {
            Some(bytes) if is_cut_so(*unit, bytes, *wanted) => {}
            _ => return Some((*unit, *length)),
        }
    }
    None
}

#[test]
fn messages_are_cut_by_the_unit(rt: HostRuntime) {
    assert_eq!(rt; first_other(&ROWS), None);
}
