//! The entries that a bridge's rows give (DSP0236, Get Routing Table Entries).
ghost use Rattle.std.specs.Prelude.{◌≡◌, ◌+◌, ◌<◌, ◌≤◌, ◌++◌, length, map, All, IfOk, OnOk};
ghost use Rattle.mctp_control.specs.RouteEntries.{entry_value};
ghost use Rattle.mctp_bridge.specs.Entries.{run_entry, own_kind, row_entries, bridge_entries, table_entries};

use mctp_control::{EntryKind, EntryPort, RouteEntry};
use mctp_routing::{RangeTable, TableRow};
use mctp_transport::{DeviceKind, Eid};
use std::alloc::{AllocError, Global};

/// What a routing table entry tells of the node that a row names, and of the bus that leads there.
#[derive(Clone, Copy, Debug)]
pub struct Neighbor<'a> {
    /// Whether the node is a bridge.
    pub kind: DeviceKind,
    /// The endpoint ID that the node holds.
    pub eid: Eid,
    /// The physical transport binding identifier of the bus (DSP0239), one byte.
    pub binding: u8,
    /// The physical media identifier of the bus (DSP0239), one byte.
    pub media: u8,
    /// The node's physical address on the bus, as that binding writes it.
    pub address: &'a [u8],
}

/// The entries of a table, row after row. A neighbor is given for each row, in the table's order. An address has at
/// most 8 bytes, and a port is below 32.
///
/// A row to an endpoint gives one entry of kind `Endpoint`. A row to a bridge is cut before the bridge's own endpoint
/// ID, if that lies in it: what comes before gives an entry of kind `Range`, and what begins with it one of kind
/// `Bridge` where it is alone, else `BridgeAndRange`. Any other row gives one entry of kind `Range`. No entry is
/// static.
pub fn route_entries(
    alloc: Global,
    table: &RangeTable,
    neighbors: &[Neighbor],
) -> Result<Vec<RouteEntry>, AllocError>
    requires one_each { length neighbors.now ≡ length table.now }
    requires addresses { All (λ neighbor. length neighbor.address.now ≤ 8) neighbors.now }
    requires ports { All (λ row. row.hop.port < 32) table.now }
    ensures { IfOk result (λ entries. map entry_value entries.items ≡ table_entries table.now neighbors.now) }
{
    let mut entries = Vec::new(alloc);
    for (index, row) in table.rows().iter().enumerate() {
        push_entries(&mut entries, row, &neighbors[index])?;
    }
    Ok(entries)
}

/// Adds the entries of a row.
fn push_entries(
    entries: &mut Vec<RouteEntry>,
    row: &TableRow,
    next: &Neighbor,
) -> Result<(), AllocError>
    requires address { length next.now.address.now ≤ 8 }
    requires port { row.now.hop.port < 32 }
    ensures { OnOk result
        (map entry_value entries.new.items ≡ map entry_value entries.old.items ++ row_entries row.now next.now) }
{
    match next.kind {
        DeviceKind::Endpoint => entries.push(run(
            row,
            next,
            row.first,
            row.size,
            EntryKind::Endpoint,
        ))?,
        DeviceKind::Bridge => push_bridge_entries(entries, row, next)?,
    }
    Ok(())
}

/// Adds the entries of a row to a bridge.
fn push_bridge_entries(
    entries: &mut Vec<RouteEntry>,
    row: &TableRow,
    next: &Neighbor,
) -> Result<(), AllocError>
    requires address { length next.now.address.now ≤ 8 }
    requires port { row.now.hop.port < 32 }
    ensures { OnOk result
        (map entry_value entries.new.items ≡ map entry_value entries.old.items ++ bridge_entries row.now next.now) }
{
    if next.eid.value == row.first.value {
        entries.push(run(row, next, next.eid, row.size, kind_of_own(row.size)))?;
        return Ok(());
    }
    if !row.covers(next.eid) {
        entries.push(run(row, next, row.first, row.size, EntryKind::Range))?;
        return Ok(());
    }
    let before = next.eid.value - row.first.value;
    let rest = row.size - before;
    entries.push(run(row, next, row.first, before, EntryKind::Range))?;
    entries.push(run(row, next, next.eid, rest, kind_of_own(rest)))?;
    Ok(())
}

/// The kind of an entry of `size` endpoint IDs that begins with the bridge's own.
fn kind_of_own(size: u8) -> EntryKind
    ensures { result ≡ own_kind size }
{
    if size == 1 {
        EntryKind::Bridge
    } else {
        EntryKind::BridgeAndRange
    }
}

/// An entry of `size` endpoint IDs along the row's hop.
fn run(row: &TableRow, next: &Neighbor, first: Eid, size: u8, kind: EntryKind) -> RouteEntry
    requires address { length next.now.address.now ≤ 8 }
    requires port { row.now.hop.port < 32 }
    ensures { entry_value result ≡ run_entry row.now next.now first.value size kind }
{
    let mut entry = RouteEntry {
        size,
        first,
        kind,
        is_static: false,
        port: EntryPort::new(row.hop.port),
        binding: next.binding,
        media: next.media,
        address: Default::default(),
    };
    let _ = entry.address.try_extend_from_slice(next.address);
    entry
}
