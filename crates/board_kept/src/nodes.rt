//! Whether a plan keeps what a board says of a node.
ghost use Rattle.std.specs.Prelude.{◌≡◌, IfOk, IsTrue, codes, option_map, slice_get, Some};
ghost use Rattle.toml.{specs.Data.{get}, specs.View.{view}};
ghost use Rattle.board_kept.specs.Kept.{IsKindKept, IsOwnerKept, SaysPool, IsPoolKept, IsAmongRows, IsRowKeptAt, AreRowsKept, NamesNode, IsNameAt, AreNamesKept, IsHeadKept, IsNodeKept};

use crate::keys::{Level, has_only_keys};
use crate::ports::keeps_ports;
use crate::records::keeps_terminus;
use crate::texts::{node_name, row_text};
use board::RecordFile;
use board_values::{
    has_item, is_left_out, is_list_at, is_number, is_text, item, says_none_or, says_run, says_text,
};
use net_tables::lookup::kind_word;
use plan_values::{Kind, Node, Plan, Pool, Row};
use std::alloc::{AllocError, Global};
use toml::Value;

/// Whether what is said of a node is so of it.
pub fn keeps_node(
    alloc: Global,
    files: &[RecordFile],
    board: &Value,
    plan: &Plan,
    node: &Node,
    said: &Value,
) -> Result<bool, AllocError>
    ensures { IfOk result (λ answer. IsTrue answer → IsNodeKept files.now (view board.now) plan.now node.now (view said.now)) }
{
    if !has_only_keys(said, Level::OfNode) || !keeps_head(plan, node, said) {
        return Ok(false);
    }
    if !keeps_pool(alloc, node.pool, said)? {
        return Ok(false);
    }
    if !keeps_ports(alloc, board, plan, &node.ports, said)? {
        return Ok(false);
    }
    if !keeps_rows(alloc, plan, &node.rows, said)? || !keeps_names(plan, said) {
        return Ok(false);
    }
    Ok(keeps_terminus(alloc, files, plan, node, said)?)
}

/// Whether the name, the kind, the endpoint ID and the owner are what stands there.
fn keeps_head(plan: &Plan, node: &Node, said: &Value) -> bool
    ensures { IsTrue result → IsHeadKept plan.now node.now (view said.now) }
{
    says_text(said, "name", node.name.text.as_str())
        && keeps_kind(node.kind, said)
        && says_none_or(said, "eid", u32::from(node.eid.value))
        && keeps_owner(plan, node.owner, said)
}

fn keeps_kind(kind: Kind, said: &Value) -> bool
    ensures { IsTrue result → IsKindKept kind (get (codes "kind") (view said.now)) }
{
    is_left_out(said, "kind") || says_text(said, "kind", kind_word(kind))
}

/// Whether the owner's name stands there, or nothing where there is no owner.
fn keeps_owner(plan: &Plan, owner: Option<usize>, said: &Value) -> bool
    ensures { IsTrue result → IsOwnerKept plan.now owner (get (codes "owner") (view said.now)) }
{
    match owner {
        Some(owner) => match node_name(plan, owner) {
            Some(name) => says_text(said, "owner", name),
            None => false,
        },
        None => is_left_out(said, "owner"),
    }
}

/// Whether the pool stands there, by its endpoint IDs or its size, or nothing where there is none.
fn keeps_pool(alloc: Global, pool: Option<Pool>, said: &Value) -> Result<bool, AllocError>
    ensures { IfOk result (λ answer. IsTrue answer → IsPoolKept pool (get (codes "pool") (view said.now))) }
{
    match pool {
        Some(pool) => Ok(says_pool(alloc, pool, said)?),
        None => Ok(is_left_out(said, "pool")),
    }
}

fn says_pool(alloc: Global, pool: Pool, said: &Value) -> Result<bool, AllocError>
    ensures { IfOk result (λ answer. IsTrue answer → SaysPool pool (get (codes "pool") (view said.now))) }
{
    match said.get("pool") {
        Some(value) => Ok(
            says_run(alloc, value, pool.first.value, pool.size)?
                || is_number(value, u32::from(pool.size)),
        ),
        None => Ok(false),
    }
}

/// The most rows of a node.
const MOST_ROWS: usize = 256;

/// Whether each row that stands there is one of these.
fn keeps_rows(alloc: Global, plan: &Plan, rows: &[Row], said: &Value) -> Result<bool, AllocError>
    ensures { IfOk result (λ answer. IsTrue answer → AreRowsKept plan.now rows.now (view said.now)) }
{
    for index in 0..MOST_ROWS {
        if !keeps_row_at(alloc, plan, rows, said, index)? {
            return Ok(false);
        }
    }
    Ok(is_list_at(said, "rows") && !has_item(said, "rows", MOST_ROWS))
}

fn keeps_row_at(
    alloc: Global,
    plan: &Plan,
    rows: &[Row],
    said: &Value,
    index: usize,
) -> Result<bool, AllocError>
    ensures { IfOk result (λ answer. IsTrue answer → IsRowKeptAt plan.now rows.now (view said.now) index) }
{
    match item(said, "rows", index) {
        Some(value) => Ok(is_among_rows(alloc, plan, rows, value)?),
        None => Ok(true),
    }
}

/// Whether one of the rows is what stands there.
pub fn is_among_rows(
    alloc: Global,
    plan: &Plan,
    rows: &[Row],
    said: &Value,
) -> Result<bool, AllocError>
    ensures { IfOk result (λ answer. IsTrue answer → IsAmongRows plan.now rows.now (Some (view said.now))) }
{
    for index in 0..rows.len() {
        if is_row_at(alloc, plan, rows, said, index)? {
            return Ok(true);
        }
    }
    Ok(false)
}

fn is_row_at(
    alloc: Global,
    plan: &Plan,
    rows: &[Row],
    said: &Value,
    index: usize,
) -> Result<bool, AllocError>
    ensures { IfOk result (λ answer. IsTrue answer → IsAmongRows plan.now rows.now (Some (view said.now))) }
{
    match row_in(rows, index) {
        Some(row) => Ok(is_text(said, &row_text(alloc, plan, row)?)),
        None => Ok(false),
    }
}

fn row_in(rows: &[Row], index: usize) -> Option<&Row>
    ensures { option_map (λ row. row.now) result ≡ slice_get rows.now index }
{
    rows.get(index)
}

/// The most names that a node is to reach.
const MOST_NAMES: usize = 64;

/// Whether each name that stands at `reaches` is a node's.
fn keeps_names(plan: &Plan, said: &Value) -> bool
    ensures { IsTrue result → AreNamesKept plan.now (view said.now) }
{
    for index in 0..MOST_NAMES {
        if !keeps_name_at(plan, said, index) {
            return false;
        }
    }
    is_list_at(said, "reaches") && !has_item(said, "reaches", MOST_NAMES)
}

fn keeps_name_at(plan: &Plan, said: &Value, index: usize) -> bool
    ensures { IsTrue result → IsNameAt plan.now (view said.now) index }
{
    match item(said, "reaches", index) {
        Some(value) => is_name_of_node(plan, value),
        None => true,
    }
}

fn is_name_of_node(plan: &Plan, said: &Value) -> bool
    ensures { IsTrue result → NamesNode plan.now (Some (view said.now)) }
{
    for node in 0..plan.nodes.len() {
        if is_name_of(plan, node, said) {
            return true;
        }
    }
    false
}

fn is_name_of(plan: &Plan, node: usize, said: &Value) -> bool
    ensures { IsTrue result → NamesNode plan.now (Some (view said.now)) }
{
    match node_name(plan, node) {
        Some(name) => is_text(said, name),
        None => false,
    }
}
