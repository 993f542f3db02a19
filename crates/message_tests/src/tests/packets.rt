//! Packets that are read under a transmission unit, held, and written as they were.
use mctp_transport::{BASELINE_UNIT, HEADER_LENGTH, MAX_UNIT, Packet, PacketView};

/// Whether the packet is written as these bytes, which its `put` counts, with what lies behind them left alone.
fn is_written_as(packet: &PacketView, wanted: &[u8]) -> bool {
    let mut out = [0xee; HEADER_LENGTH + MAX_UNIT + 1];
    let count = packet.put(&mut out);
    packet.len() == count && &out[..count] == wanted && out[count] == 0xee
}

/// `kept` where the bytes are read under the unit and written as they were, or else the code of the refusal.
fn read_under(unit: usize, bytes: &[u8]) -> &'static str {
    if unit < BASELINE_UNIT || MAX_UNIT < unit {
        return "no unit";
    }
    match PacketView::read_within(bytes, unit) {
        Ok(packet) if is_written_as(&Packet::of(packet).view(), bytes) => "kept",
        Ok(_) => "another",
        Err(error) => error.code(),
    }
}

/// A unit, the first byte of a packet, and how many bytes it has.
type Given = (usize, u8, usize);

const ROWS: [(Given, &str); 15] = [
    ((64, 0x01, 3), "P01"),
    ((64, 0x01, 4), "P02"),
    ((64, 0x02, 4), "P02"),
    ((64, 0x02, 5), "P04"),
    ((64, 0x01, 5), "kept"),
    // reserved bits
    ((64, 0xf1, 5), "kept"),
    ((64, 0x01, 68), "kept"),
    ((64, 0x01, 69), "P03"),
    ((64, 0x02, 69), "P03"),
    ((65, 0x01, 69), "kept"),
    ((65, 0x02, 69), "P04"),
    ((65, 0x01, 70), "P03"),
    ((65, 0x02, 70), "P03"),
    ((1024, 0x01, 1028), "kept"),
    ((1024, 0x01, 1029), "P03"),
];

/// The first packet of which something else comes. All bytes behind the first are the same.
fn first_other(rows: &[(Given, &str)]) -> Option<Given> {
    let mut bytes = [0x5a; HEADER_LENGTH + MAX_UNIT + 1];
    for (given, wanted) in rows {
        let (unit, first, length) = *given;
        bytes[0] = first;
        match bytes.get(..length) {
            Some(packet) if read_under(unit, packet) == *wanted => {}
            _ => return Some(*given),
        }
    }
    None
}

#[test]
fn packets_are_kept_or_refused(rt: HostRuntime) {
    assert_eq!(rt; first_other(&ROWS), None);
}
