//! Rows that are cut at endpoint IDs.
ghost use Rattle.std.specs.Prelude.{◌≡◌, ◌⊎◌, ◌↔◌, ◌<◌, ◌≤◌, ℕ, IfOk, OnOk, IsTrue, MatchOption, Some};
ghost use Rattle.net_tables.specs.Routing.{Covers, NamesFor};
ghost use Rattle.net_rollout.specs.Steps.{IsPieceOf, SendAs, SendsBy};

use mctp_transport::Eid;
use net_tables::lookup::covers;
use plan_values::Row;
use std::alloc::{AllocError, Global};

/// The rows of a node that sends the endpoint IDs from the first to the last on by its new rows, and others as before.
pub fn rows_with(
    alloc: Global,
    rows: &[Row],
    new: &[Row],
    first: Eid,
    last: Eid,
) -> Result<Vec<Row>, AllocError>
    ensures { IfOk result (λ made. SendAs (λ e. (first.value ≤ e) × (e ≤ last.value)) rows.now new.now made.items) }
{
    let first = u16::from(first.value);
    let behind = u16::from(last.value) + 1;
    let mut made = Vec::new(alloc);
    add_pieces(&mut made, rows, 0, first)?;
    add_pieces(&mut made, new, first, behind)?;
    add_pieces(&mut made, rows, behind, 256)?;
    Ok(made)
}

/// Adds the pieces of rows for the endpoint IDs from `from` to below `to`.
fn add_pieces(made: &mut Vec<Row>, rows: &[Row], from: u16, to: u16) -> Result<(), AllocError>
    requires { to ≤ 256 }
    ensures { OnOk result ((e port m : ℕ) → SendsBy made.new.items e port m ↔ (SendsBy made.old.items e port m ⊎ (SendsBy rows.now e port m × (from ≤ e) × (e < to)))) }
{
    for row in rows {
        add_piece(made, *row, from, to)?;
    }
    Ok(())
}

/// Adds the piece of a row, if there is one.
fn add_piece(made: &mut Vec<Row>, row: Row, from: u16, to: u16) -> Result<(), AllocError>
    requires { to ≤ 256 }
    ensures { OnOk result ((e port m : ℕ) → SendsBy made.new.items e port m ↔ (SendsBy made.old.items e port m ⊎ IsPieceOf row from to e port m)) }
{
    match piece_of(row, from, to) {
        Some(piece) => Ok(made.push(piece)?),
        None => Ok(()),
    }
}

/// The piece of a row for the endpoint IDs from `from` to below `to`, which is 256 at most.
fn piece_of(row: Row, from: u16, to: u16) -> Option<Row>
    requires { to ≤ 256 }
    ensures { MatchOption result ((e : ℕ) → Covers row e → from ≤ e → ¬ (e < to)) (λ piece. (piece.port ≡ row.port) × (piece.next ≡ row.next) × ((e : ℕ) → Covers piece e ↔ (Covers row e × (from ≤ e) × (e < to)))) }
{
    let first = u16::from(row.first.value);
    let end = (first + u16::from(row.size)).min(to);
    let start = first.max(from);
    if start >= end {
        return None;
    }
    Some(Row {
        first: Eid::new(start as u8),
        size: (end - start) as u8,
        port: row.port,
        next: row.next,
    })
}

/// Whether rows send what is for an endpoint ID to just this node, or have no row for it where none is given.
pub fn is_sent_to(rows: &[Row], eid: Eid, next: Option<usize>) -> bool
    ensures { IsTrue result → (m : ℕ) → NamesFor rows.now eid.value m ↔ (next ≡ Some m) }
{
    let mut is_sent = false;
    for row in rows {
        if covers(row, eid) {
            if !is_next(next, row.next) {
                return false;
            }
            is_sent = true;
        }
    }
    if is_sent {
        return true;
    }
    next.is_none()
}

fn is_next(next: Option<usize>, node: usize) -> bool
    ensures { IsTrue result ↔ (next ≡ Some node) }
{
    next == Some(node)
}
