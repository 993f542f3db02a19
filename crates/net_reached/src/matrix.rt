//! A table of who reaches whom, in how many hops.
ghost use Rattle.std.specs.Prelude.{◌≡◌, ◌<◌, ◌++◌, IfOk, codes, length, string_bytes};
ghost use Rattle.net_reached.specs.Matrices.{number_cell, head_cells, IsCell, AreCells, IsRow, AreRows, IsMatrix};

use crate::reached::hops_between;
use net_check::Checked;
use net_tables::lookup::node_name;
use std::alloc::{AllocError, Global};

/// A table with a row and a column for each node of a checked plan, in its order, by number from 1: how many hops a
/// packet of the row's node makes to the column's, a dash where it doesn't arrive, and a dot for one node. The name
/// ends a row.
pub fn matrix_text(alloc: Global, checked: &Checked) -> Result<String, AllocError>
    ensures { IfOk result (λ text. IsMatrix checked.now.0 (string_bytes text)) }
{
    let mut text = head_line(alloc, checked.plan().nodes.len())?;
    text.push_str(&rows_text(alloc, checked)?)?;
    Ok(text)
}

fn rows_text(alloc: Global, checked: &Checked) -> Result<String, AllocError>
    ensures { IfOk result (λ text. AreRows checked.now.0 (length checked.now.0.nodes.items) (string_bytes text)) }
{
    let mut text = String::new(alloc);
    for node in 0..checked.plan().nodes.len() {
        text.push_str(&row_text(alloc, checked, node)?)?;
    }
    Ok(text)
}

/// The numbers of so many nodes.
fn head_line(alloc: Global, count: usize) -> Result<String, AllocError>
    ensures { IfOk result (λ line. string_bytes line ≡ codes "    " ++ (head_cells count ++ codes "\n")) }
{
    let cells = number_cells(alloc, count)?;
    format!(in alloc; "    {cells}\n")
}

fn number_cells(alloc: Global, count: usize) -> Result<String, AllocError>
    ensures { IfOk result (λ cells. string_bytes cells ≡ head_cells count) }
{
    let mut cells = String::new(alloc);
    for node in 0..count {
        cells.push_str(&number_cell(alloc, node + 1)?)?;
    }
    Ok(cells)
}

/// A number in three columns.
fn number_cell(alloc: Global, number: usize) -> Result<String, AllocError>
    ensures { IfOk result (λ cell. string_bytes cell ≡ number_cell number) }
{
    if number < 10 {
        return format!(in alloc; "  {number}");
    }
    if number < 100 {
        return format!(in alloc; " {number}");
    }
    format!(in alloc; "{number}")
}

/// The row of a node.
fn row_text(alloc: Global, checked: &Checked, node: usize) -> Result<String, AllocError>
    requires { node < length checked.now.0.nodes.items }
    ensures { IfOk result (λ row. IsRow checked.now.0 node (string_bytes row)) }
{
    let number = number_cell(alloc, node + 1)?;
    let cells = cells_text(alloc, checked, node)?;
    let name = node_name(checked.plan(), node);
    format!(in alloc; "{number} {cells}  {name}\n")
}

/// The cells of a node.
fn cells_text(alloc: Global, checked: &Checked, from: usize) -> Result<String, AllocError>
    ensures { IfOk result (λ cells. AreCells checked.now.0 from (length checked.now.0.nodes.items) (string_bytes cells)) }
{
    let mut cells = String::new(alloc);
    for to in 0..checked.plan().nodes.len() {
        cells.push_str(&cell_text(alloc, checked, from, to)?)?;
    }
    Ok(cells)
}

/// What the table has for two nodes.
fn cell_text(alloc: Global, checked: &Checked, from: usize, to: usize) -> Result<String, AllocError>
    ensures { IfOk result (λ cell. IsCell checked.now.0 from to (string_bytes cell)) }
{
    if from == to {
        return "  .".to_string(alloc);
    }
    match hops_between(alloc, checked, from, to)? {
        Some(hops) => number_cell(alloc, hops),
        None => "  -".to_string(alloc),
    }
}
