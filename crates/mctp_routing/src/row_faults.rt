//! The first fault of a list of rows.
ghost use Rattle.std.specs.Prelude.{◌<◌, ◌+◌, length, take, All, MatchOption};
ghost use Rattle.mctp_routing.{specs.Rows.{AreApart, AreLawful}, specs.RowFaults.{IsFirstFault, IsFirstOverlap}};

use crate::row::TableRow;
use crate::table_fault::TableFault;

/// The first fault of the rows, in their order.
pub(crate) fn first_fault(rows: &[TableRow]) -> Option<TableFault>
    ensures { MatchOption result (AreLawful rows.now) (IsFirstFault rows.now) }
{
    for index in 0..rows.len() {
        let fault = fault_at(rows, index);
        if fault.is_some() {
            return fault;
        }
    }
    None
}

/// What is wrong with a row, where the rows before it are lawful.
fn fault_at(rows: &[TableRow], index: usize) -> Option<TableFault>
    requires within { index < length rows.now }
    requires before { AreLawful (take index rows.now) }
    ensures { MatchOption result (AreLawful (take (index + 1) rows.now)) (IsFirstFault rows.now) }
{
    let row = rows[index];
    if row.is_empty() {
        return Some(TableFault::Empty { row: index });
    }
    if row.is_outside() {
        return Some(TableFault::Outside { row: index });
    }
    match first_overlap(&rows[..index], &row) {
        Some(earlier) => Some(TableFault::Overlap {
            row: index,
            earlier,
        }),
        None => None,
    }
}

/// The first of the rows that shares an endpoint ID with this one.
fn first_overlap(rows: &[TableRow], row: &TableRow) -> Option<usize>
    ensures { MatchOption result (All (AreApart row.now) rows.now) (IsFirstOverlap rows.now row.now) }
{
    for (index, other) in rows.iter().enumerate() {
        if !row.is_apart_from(other) {
            return Some(index);
        }
    }
    None
}
