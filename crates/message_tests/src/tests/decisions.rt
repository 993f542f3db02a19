//! What an endpoint does with packets, by their destination and by whether they begin there.
use mctp_routing::{
    Decision, DeviceKind, ForwardFault, ForwardingNode, Hop, RangeTable, TableRow, decide,
};
use mctp_transport::{Eid, PacketView};
use std::test::Fail;

/// Whether a packet has made no hop, its destination, and what is decided.
type Row = (bool, u8, Decision);

/// The endpoint has the endpoint ID 17, and one row, for 8 to 16.
const ROWS: [Row; 4] = [
    (false, 17, Decision::Here),
    (false, 255, Decision::Drop(ForwardFault::Unassignable)),
    (false, 8, Decision::Drop(ForwardFault::NoBridge)),
    (true, 30, Decision::Drop(ForwardFault::NoRow)),
];

/// Whether the node decides so on a packet from endpoint ID 8.
fn is_decided_so(node: &ForwardingNode, row: Row) -> bool {
    let (at_origin, destination, wanted) = row;
    match PacketView::read(&[0x01, destination, 0x08, 0xcb, 0x01]) {
        Ok(packet) => decide(node, at_origin, &packet.header) == wanted,
        Err(_) => false,
    }
}

/// The first row that is decided otherwise.
fn first_other(node: &ForwardingNode, rows: &[Row]) -> Option<Row> {
    for row in rows {
        if !is_decided_so(node, *row) {
            return Some(*row);
        }
    }
    None
}

#[test]
fn an_endpoint_takes_drops_and_sends(rt: HostRuntime) -> Result<(), Fail> {
    let to_riser = TableRow {
        first: Eid::new(8),
        size: 9,
        hop: Hop { port: 0, next: 1 },
    };
    let table = RangeTable::build(rt.alloc(), &[to_riser])
        .ok()
        .ok_or("no table")?;
    let nic = ForwardingNode {
        eid: Eid::new(17),
        kind: DeviceKind::Endpoint,
        table: &table,
    };
    assert_eq!(rt; first_other(&nic, &ROWS), None);
    Ok(())
}
