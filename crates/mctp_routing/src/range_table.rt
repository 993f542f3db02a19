//! A routing table (DSP0236, bridging), ready for look-ups.
ghost use Rattle.std.{specs.Prelude.{◌≡◌, ◌<◌, ◌≤◌, List, length, IfOk, IfErr, OnOk}, specs.List.{AllWithin}, specs.List.Sorted.{IsPermutation}};
ghost use Rattle.mctp_routing.{specs.declared.row.TableRow.{TableRow}, specs.Rows.{AreLawful, IsTable, HasSameRoutes, IsNext}, specs.RowFaults.{IsFirstFault}, specs.Pieces.{ArePieces}};

use crate::pieces::Pieces;
use crate::row::{Hop, TableRow};
use crate::row_faults::first_fault;
use crate::table_fault::TableFault;
use mctp_transport::Eid;
use std::alloc::{AllocError, Global};
use std::marker::Model;

/// A lawful routing table: its rows in the order of their first endpoint IDs. Each row covers an endpoint ID, all that
/// it covers can be held, and no two rows share one.
#[derive(Debug, Drop)]
pub struct RangeTable {
    rows: Vec<TableRow>,
}

impl Model for RangeTable {
    ghost Value = { List TableRow };

    ghost view = { λ t. t.rows.items };

    ghost invariant = { λ t. IsTable t.rows.items };
}

impl RangeTable {
    /// The table of these rows. Where they have faults, the first one in their order is answered; `TableFault::Memory`
    /// only where they have none.
    pub fn build(alloc: Global, rows: &[TableRow]) -> Result<Self, TableFault>
        ensures lawful { OnOk result (AreLawful rows.now) }
        ensures same { IfOk result (λ table. IsPermutation rows.now table) }
        ensures ordered { IfOk result (λ table. IsTable table) }
        ensures routes { IfOk result (λ table. HasSameRoutes rows.now table) }
        ensures fault { IfErr result (λ fault. IsFirstFault rows.now fault) }
    {
        if let Some(fault) = first_fault(rows) {
            return Err(fault);
        }
        let rows = sorted(alloc, rows)?;
        Ok(RangeTable { rows })
    }

    /// Where the table sends packets to the endpoint ID: the hop of the row that covers it, none where no row does.
    pub fn next(&self, eid: Eid) -> Option<Hop>
        ensures { IsNext self.now eid.value result }
    {
        next_in(&self.rows, eid)
    }

    /// The interval from `first` to `last`, which isn't before it, both included, in pieces: one for each row that
    /// covers some of it, cut to it, and one for each gap that no row covers.
    pub fn pieces(&self, first: Eid, last: Eid) -> Pieces<'_>
        requires { first.value ≤ last.value }
        ensures { ArePieces self.now first.value last.value result }
    {
        Pieces::of(&self.rows, first, last)
    }

    /// The rows in the order of their first endpoint IDs.
    pub fn rows(&self) -> &[TableRow]
        ensures rows { result.now ≡ self.now }
        ensures ordered { IsTable self.now }
    {
        &self.rows
    }
}

/// The rows in the order of their first endpoint IDs.
fn sorted(alloc: Global, rows: &[TableRow]) -> Result<Vec<TableRow>, AllocError>
    requires { AreLawful rows.now }
    ensures same { IfOk result (λ table. IsPermutation rows.now table.items) }
    ensures ordered { IfOk result (λ table. IsTable table.items) }
    ensures routes { IfOk result (λ table. HasSameRoutes rows.now table.items) }
{
    let mut table = Vec::new(alloc);
    table.extend_from_slice(rows)?;
    table.sort_unstable_by_key(|row| row.first.value);
    Ok(table)
}

/// The hop of the row that covers the endpoint ID. It is the last row that begins no higher, if any.
fn next_in(rows: &[TableRow], eid: Eid) -> Option<Hop>
    requires { IsTable rows.now }
    ensures { IsNext rows.now eid.value result }
{
    let begun = begun_by(rows, eid);
    if begun == 0 {
        return None;
    }
    let row = &rows[begun - 1];
    if row.covers(eid) { Some(row.hop) } else { None }
}

/// How many rows begin no higher than the endpoint ID. They are found by halving.
fn begun_by(rows: &[TableRow], eid: Eid) -> usize
    requires { IsTable rows.now }
    ensures within { result ≤ length rows.now }
    ensures begun { AllWithin (λ row. row.first.value ≤ eid.value) rows.now 0 result }
    ensures past { AllWithin (λ row. eid.value < row.first.value) rows.now result (length rows.now) }
{
    rows.partition_point(|row| row.first.value <= eid.value)
}
