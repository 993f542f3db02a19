//! Whether a checked plan is another one with rows.
ghost use Rattle.std.specs.Prelude.{◌≡◌, IsTrue, OnOk};
ghost use Rattle.plan_values.specs.NodeValues.{row_value};
ghost use Rattle.board_kept.specs.Rowed.{IsKeptIn, HasTheRow, IsRowOfNodeKept, AreRowsOfNodeKept, AreRowsOfAllKept, ReachesAll, AllReachAll, IsRowedFrom};

use crate::fit::judge_pair;
use crate::same::is_same_but_rows;
use crate::unfit::Unfit;
use net_check::Checked;
use net_tables::lookup::{row_at, rows_at};
use plan_values::{Plan, Row};
use std::alloc::Global;

/// That a checked plan is another one but for its rows, in which it has those of the other, and that all its nodes
/// reach each other.
pub fn judge_rows(alloc: Global, before: &Plan, checked: &Checked) -> Result<(), Unfit>
    ensures { OnOk result (IsRowedFrom before.now checked.now.0 checked.now.1) }
{
    if !is_kept(before, checked) {
        return Err(Unfit::NotKept);
    }
    judge_all(alloc, checked)
}

/// Whether a checked plan is another one but for its rows, in which it has those of the other.
fn is_kept(before: &Plan, checked: &Checked) -> bool
    ensures { IsTrue result → IsKeptIn before.now checked.now.0 checked.now.1 }
{
    let plan = checked.plan();
    is_same_but_rows(before, plan) && keeps_all_rows(before, plan)
}

/// Whether each node has the rows that it has in the other plan.
fn keeps_all_rows(before: &Plan, after: &Plan) -> bool
    ensures { IsTrue result → AreRowsOfAllKept before.now after.now }
{
    for node in 0..before.nodes.len() {
        if !keeps_rows_of(before, after, node) {
            return false;
        }
    }
    true
}

fn keeps_rows_of(before: &Plan, after: &Plan, node: usize) -> bool
    ensures { IsTrue result → AreRowsOfNodeKept before.now after.now node }
{
    for index in 0..rows_at(before, node).len() {
        if !keeps_row_of(before, after, node, index) {
            return false;
        }
    }
    true
}

fn keeps_row_of(before: &Plan, after: &Plan, node: usize, index: usize) -> bool
    ensures { IsTrue result → IsRowOfNodeKept before.now after.now node index }
{
    match row_at(before, node, index) {
        Some(row) => has_the_row(after, node, row),
        None => true,
    }
}

/// Whether the node has the row.
fn has_the_row(plan: &Plan, node: usize, row: &Row) -> bool
    ensures { IsTrue result → HasTheRow plan.now node row.now }
{
    for index in 0..rows_at(plan, node).len() {
        if is_the_row(plan, node, row, index) {
            return true;
        }
    }
    false
}

fn is_the_row(plan: &Plan, node: usize, row: &Row, index: usize) -> bool
    ensures { IsTrue result → HasTheRow plan.now node row.now }
{
    match row_at(plan, node, index) {
        Some(own) => is_same_row(own, row),
        None => false,
    }
}

fn is_same_row(own: &Row, row: &Row) -> bool
    ensures { IsTrue result → row_value own.now ≡ row_value row.now }
{
    own.first == row.first && own.size == row.size && own.port == row.port && own.next == row.next
}

/// That all nodes reach each other.
fn judge_all(alloc: Global, checked: &Checked) -> Result<(), Unfit>
    ensures { OnOk result (AllReachAll checked.now.0) }
{
    for from in 0..checked.plan().nodes.len() {
        judge_from(alloc, checked, from)?;
    }
    Ok(())
}

/// That a node reaches all.
fn judge_from(alloc: Global, checked: &Checked, from: usize) -> Result<(), Unfit>
    ensures { OnOk result (ReachesAll checked.now.0 from) }
{
    for to in 0..checked.plan().nodes.len() {
        judge_pair(alloc, checked, from, to)?;
    }
    Ok(())
}
