//! Routing tables, their faults and their entries, worked by hand.
ghost use Rattle.std.specs.Prelude.{◌≤◌, All, length};

use super::messages::is_written_as;
use mctp_bridge::{Neighbor, route_entries};
use mctp_control::RouteEntry;
use mctp_routing::{DeviceKind, Hop, RangeTable, TableFault, TableRow};
use mctp_transport::Eid;
use std::alloc::{AllocError, Global};
use std::test::Fail;

const HOP: Hop = Hop { port: 0, next: 2 };

pub(crate) fn row(first: u8, size: u8) -> TableRow {
    TableRow {
        first: Eid::new(first),
        size,
        hop: HOP,
    }
}

/// The first endpoint ID of a row, and how many it covers.
type Row = (u8, u8);

/// The fault of the table of these rows.
fn fault_of(alloc: Global, rows: &[Row]) -> Result<Option<TableFault>, AllocError> {
    let mut list = Vec::new(alloc);
    for (first, size) in rows {
        list.push(row(*first, *size))?;
    }
    Ok(RangeTable::build(alloc, &list).err())
}

const FAULTS: [(&[Row], Option<TableFault>); 10] = [
    (&[(8, 247)], None),
    (&[(16, 8), (20, 0)], Some(TableFault::Empty { row: 1 })),
    (&[(250, 6)], Some(TableFault::Outside { row: 0 })),
    (&[(8, 248)], Some(TableFault::Outside { row: 0 })),
    (&[(8, 255)], Some(TableFault::Outside { row: 0 })),
    (&[(254, 1), (255, 1)], Some(TableFault::Outside { row: 1 })),
    (&[(255, 255)], Some(TableFault::Outside { row: 0 })),
    (&[(7, 1), (20, 0)], Some(TableFault::Outside { row: 0 })),
    (
        &[(16, 8), (23, 1)],
        Some(TableFault::Overlap { row: 1, earlier: 0 }),
    ),
    (
        &[(30, 1), (16, 8), (8, 1), (10, 10)],
        Some(TableFault::Overlap { row: 3, earlier: 1 }),
    ),
];

/// The rows of the first table that has another fault.
fn first_other<'a>(
    alloc: Global,
    tables: &[(&'a [Row], Option<TableFault>)],
) -> Result<Option<&'a [Row]>, AllocError> {
    for (rows, wanted) in tables {
        if fault_of(alloc, *rows)? != *wanted {
            return Ok(Some(*rows));
        }
    }
    Ok(None)
}

#[test]
fn tables_have_their_first_fault(rt: HostRuntime) -> Result<(), Fail> {
    assert_eq!(rt; first_other(rt.alloc(), &FAULTS)?, None);
    Ok(())
}

/// The endpoint IDs next to a row's, and the first and the last of it. Its hop leads to the node of the highest index.
#[test]
fn a_table_covers_its_rows_alone(rt: HostRuntime) -> Result<(), Fail> {
    let hop = Hop {
        port: 255,
        next: 4_294_967_295,
    };
    let wide = TableRow { hop, ..row(8, 247) };
    let table = RangeTable::build(rt.alloc(), &[wide])
        .ok()
        .ok_or("no table")?;
    let hops = [7, 8, 254, 255].map(|eid| table.next(Eid::new(eid)));
    assert_eq!(rt; hops, [None, Some(hop), Some(hop), None]);
    Ok(())
}

/// The entries of a table of these rows, where it can have some.
pub(crate) fn told(
    alloc: Global,
    rows: &[TableRow],
    neighbors: &[Neighbor],
) -> Option<Vec<RouteEntry>>
    requires { All (λ neighbor. length neighbor.address.now ≤ 8) neighbors.now }
{
    let table = RangeTable::build(alloc, rows).ok()?;
    if table.rows().len() != neighbors.len() || table.rows().iter().any(|row| row.hop.port > 31) {
        return None;
    }
    route_entries(alloc, &table, neighbors).ok()
}

/// Whether the entries have these bytes, and no others.
fn are_entries(entries: &[RouteEntry], wanted: &[[u8; 7]]) -> bool {
    for (entry, bytes) in entries.iter().zip(wanted) {
        if !is_written_as(entry, bytes) {
            return false;
        }
    }
    entries.len() == wanted.len()
}

/// Whether a row to a bridge of endpoint ID 16 is told by these entries.
fn is_told_so(alloc: Global, row: TableRow, wanted: &[[u8; 7]]) -> bool {
    let riser = Neighbor {
        kind: DeviceKind::Bridge,
        eid: Eid::new(16),
        binding: 1,
        media: 4,
        address: &[0x20],
    };
    match told(alloc, &[row], &[riser]) {
        Some(entries) => are_entries(&entries, wanted),
        None => false,
    }
}

#[test]
fn a_row_is_cut_before_the_bridge_itself(rt: HostRuntime) {
    let before = [0x02, 0x0e, 0xc0, 0x01, 0x04, 0x01, 0x20];
    let own = [0x08, 0x10, 0x40, 0x01, 0x04, 0x01, 0x20];
    assert!(rt;
        is_told_so(rt.alloc(), row(16, 8), &[own]),
        "from the bridge on"
    );
    assert!(rt;
        is_told_so(rt.alloc(), row(14, 10), &[before, own]),
        "from before it"
    );
}
