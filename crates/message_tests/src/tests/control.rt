//! Devices that answer control messages, and pools of endpoint IDs.
ghost use Rattle.std.specs.Prelude.{◌<◌, length};

use super::messages::{TABLE, bytes_of};
use mctp_control::{ControlAnswer, Device, EidPool, EidRange, Response, RouteEntry};
use mctp_routing::DeviceKind;
use mctp_transport::{Eid, Wire};
use std::alloc::Global;
use std::test::Fail;

/// Whether the device answers a row's body so: the bus that it comes over, the body, and the reply, or a dash for none.
fn replies(
    alloc: Global,
    device: &mut Device,
    table: &[RouteEntry],
    row: &str,
) -> Result<bool, Fail>
    requires { length table.now < 255 }
{
    let mut words = row.split(' ');
    let (Some(bus), Some(body), Some(wanted)) = (words.next(), words.next(), words.next()) else {
        return Ok(false);
    };
    let reply = match device.answer(u8::from(bus == "1"), table, &bytes_of(alloc, body)?) {
        Some(reply) => hex::encode(alloc, reply.as_slice())?,
        None => "-".to_string(alloc)?,
    };
    Ok(reply.as_str() == wanted)
}

/// A bridge of endpoint ID 8 with a pool of 8 from 16 on.
fn configured() -> Device {
    Device::configured(
        DeviceKind::Bridge,
        Eid::new(8),
        EidRange::of(Eid::new(16), 8),
    )
}

/// What comes to devices one after another, each with what it replies: to an endpoint, a bridge that wants a pool of 7,
/// and one that is configured.
const REPLIES: &str = "
# an endpoint keeps its endpoint ID, and knows two commands
endpoint
0 008502 00050200000000
0 00a002 00000200000000
0 008001000a 00000100000a00
1 008001000b 00000100100a00
0 008002 000002000a0000
0 008008000711 00000805
0 00800a00 00000a05
0 008003 00000305
# of two causes the first is told: the command, the length, the values
endpoint
0 008008 00000805
0 00800100 00000103
0 00800102 00000103
0 00800200 00000203
0 0080010000 00000102
0 0080010007 00000102
0 00800101ff 00000102
0 008001020a 00000102
0 008001030a 00000102
0 00c002 -
0 000002 -
0 004002 -
0 808002 -
0 0080 -
# a bridge takes a pool, keeps it, and tells it
bridge
0 0080010010 00000100011007
0 008008000711 00000800000711
0 0080010010 00000100021007
0 008002 00000200101000
1 008008000320 00000800010711
1 008008020000 00000800000711
0 00800a00 00000a00ff00
# what no bridge takes: other lengths, pools outside 8 to 254, another operation, and entries that it doesn't have
bridge
0 008003 00000305
0 0080080007 00000803
0 00800a 00000a03
0 0080010010 00000100011007
0 008008000011 00000802
0 008008000707 00000802
0 0080080007f9 00000802
0 008008030711 00000802
0 00800a03 00000a02
0 0080080007f8 000008000007f8
# it yields to force
bridge
0 0080010010 00000100011007
1 0080010111 00000100011107
# and to force alone, where it was configured
configured
0 008001000a 00000100120808
0 008008000320 00000800010810
0 008001010a 00000100020a08
0 008008010320 00000800000320
";

/// The first row that a device answers otherwise. A device answers the rows that follow its name.
fn first_other(alloc: Global, rows: &'static str) -> Result<Option<&'static str>, Fail> {
    let mut device = Device::endpoint();
    for row in rows.lines() {
        match row {
            "endpoint" => device = Device::endpoint(),
            "bridge" => device = Device::bridge(7),
            "configured" => device = configured(),
            _ => {
                if !row.is_empty()
                    && !row.starts_with('#')
                    && !replies(alloc, &mut device, &[], row)?
                {
                    return Ok(Some(row));
                }
            }
        }
    }
    Ok(None)
}

#[test]
fn devices_answer(rt: HostRuntime) -> Result<(), Fail> {
    assert_eq!(rt; first_other(rt.alloc(), REPLIES)?, None);
    Ok(())
}

#[test]
fn a_bridge_knows_what_it_has(rt: HostRuntime) {
    let bridge = configured();
    assert_eq!(rt; bridge.eid(), Some(Eid::new(8)));
    assert!(rt; matches!(bridge.pool(), Some(range) if range.size == 8));
}

#[test]
fn bridges_tell_their_tables(rt: HostRuntime) -> Result<(), Fail> {
    let table = [
        RouteEntry::read(&[1, 0x08, 0x80, 1, 4, 1, 0x10])?,
        RouteEntry::read(&[1, 0x11, 0x01, 1, 4, 1, 0x30])?,
        RouteEntry::read(&[1, 0x12, 0x01, 1, 4, 1, 0x32])?,
    ];
    let alloc = rt.alloc();
    let mut bridge = Device::bridge(7);
    let whole = format!(in alloc; "0 00800a00 {TABLE}")?;
    assert!(rt; replies(alloc, &mut bridge, &table, &whole)?);
    assert!(rt; replies(alloc, &mut bridge, &table, "0 00800a03 00000a02")?);
    let answer = bytes_of(alloc, TABLE)?;
    match Response::read(&answer)?.answer {
        ControlAnswer::GetRoutingTableEntries { next, entries } => {
            assert!(rt; next == 0xff && entries.items.as_slice() == table.as_slice());
        }
        _ => return Err(Fail::from("no entries")),
    }
    Ok(())
}

/// A call of a pool, and what it answers.
#[derive(Clone, Copy)]
enum Turn {
    Take(Option<u8>),
    /// So many at once.
    TakeBlock(u8, Option<u8>),
    GiveBack(u8, bool),
}

/// Whether the pool answers this turn's call so.
fn answers(pool: &mut EidPool, turn: Turn) -> bool {
    match turn {
        Turn::Take(wanted) => pool.take().map(|eid| eid.value) == wanted,
        Turn::TakeBlock(0, _) => false,
        Turn::TakeBlock(count, wanted) => pool.take_block(count).map(|eid| eid.value) == wanted,
        Turn::GiveBack(eid, was_out) => pool.give_back(Eid::new(eid)) == was_out,
    }
}

/// A pool of seven from 17 on.
const TURNS: [Turn; 7] = [
    Turn::Take(Some(17)),
    Turn::Take(Some(18)),
    Turn::GiveBack(17, true),
    Turn::GiveBack(17, false),
    Turn::TakeBlock(3, Some(19)),
    Turn::Take(Some(17)),
    Turn::TakeBlock(3, None),
];

/// The place of the first turn in which the pool answers otherwise.
fn first_other_turn(pool: &mut EidPool, turns: &[Turn]) -> Option<usize> {
    for (place, turn) in turns.iter().enumerate() {
        if !answers(pool, *turn) {
            return Some(place);
        }
    }
    None
}

#[test]
fn pools_give_the_lowest(rt: HostRuntime) {
    let mut pool = EidPool::new(Eid::new(17), 7);
    assert_eq!(rt; first_other_turn(&mut pool, &TURNS), None);
}

/// The first endpoint ID of a range, how many it has, and whether there is such a range.
const RANGES: [(u8, u8, bool); 8] = [
    (8, 247, true),
    (8, 248, false),
    (8, 0, false),
    (7, 1, false),
    (254, 1, true),
    (254, 2, false),
    (255, 1, false),
    (8, 255, false),
];

/// The first range of which it is otherwise.
fn first_other_range(rows: &[(u8, u8, bool)]) -> Option<(u8, u8, bool)> {
    for row in rows {
        if EidRange::of(Eid::new(row.0), row.1).is_some() != row.2 {
            return Some(*row);
        }
    }
    None
}

#[test]
fn ranges_lie_in_8_to_254(rt: HostRuntime) {
    assert_eq!(rt; first_other_range(&RANGES), None);
}
