//! Edits that were tried, as operations of a JSON patch (RFC 6902).
ghost use Rattle.std.specs.Prelude.{◌≡◌, IfOk, map, string_bytes, ⊤};
ghost use Rattle.net_plan.specs.Finding.{step_value};
ghost use Rattle.serde_json.specs.View.{view};
ghost use Rattle.json_commands.{specs.Edits.{IsEditTold, edit_pointer, op_of, part_of_record}, specs.Places.{json_pointer}, specs.Values.{IsListTold}};

use crate::lists::{Listed, list_of};
use crate::notes::lines_value;
use crate::places::pointer_words;
use explanation_texts::edit_line;
use fault_texts::{part_pointer, record_pointer, row_pointer};
use net_explained::{Change, Edit, Tried};
use net_plan::PointerStep;
use net_rules::CertifyError;
use net_tables::lookup::{kind_word, node_name, rows_at};
use plan_texts::obstacle_words;
use plan_values::Plan;
use serde_json::{Value, json};
use std::alloc::{AllocError, Global};

/// The edits, in their order.
pub fn edits_value(alloc: Global, plan: &Plan, edits: &[Tried]) -> Result<Value, AllocError>
    ensures { IfOk result (λ value. IsListTold (IsEditTold plan.now) edits.now (view value)) }
{
    list_of(alloc, &EditWriter { plan }, edits)
}

/// Writes edits of a plan.
#[derive(Clone, Copy)]
struct EditWriter<'p> {
    plan: &'p Plan,
}

impl<'p> Listed for EditWriter<'p> {
    type Item = Tried;

    ghost ready = { λ _. ⊤ };

    ghost told = { λ s tried d. IsEditTold s.plan.now tried d };

    /// The operation, its pointer and its value, what is said of it, and what rules certificates out once it is made.
    fn value_of(&self, alloc: Global, item: &Tried) -> Result<Value, AllocError> {
        let (plan, edit) = (self.plan, &item.edit);
        json!(in alloc; {
            "left": left_value(alloc, plan, &item.left)?, "op": op_of(&edit.change),
            "path": edit_path(alloc, plan, edit)?, "sentences": lines_value(alloc, &edit_line(alloc, plan, edit)?)?,
            "value": changed_value(alloc, plan, &edit.change)?
        })
    }
}

/// What rules certificates out, or null.
fn left_value(
    alloc: Global,
    plan: &Plan,
    left: &Option<CertifyError>,
) -> Result<Value, AllocError> {
    match left {
        None => Ok(Value::Null),
        Some(next) => Ok(Value::String(obstacle_words(alloc, plan, next)?)),
    }
}

/// What is done to a value.
fn op_of(change: &Change) -> &'static str
    ensures { result.now ≡ op_of change.now }
{
    match change {
        Change::LessRow(_) => "remove",
        Change::MoreRow(_) => "add",
        _ => "replace",
    }
}

/// Where it is done.
fn edit_path(alloc: Global, plan: &Plan, edit: &Edit) -> Result<String, AllocError>
    ensures { IfOk result (λ path. string_bytes path ≡ json_pointer (edit_pointer plan.now edit.now.node edit.now.change)) }
{
    let pointer = edit_pointer(alloc, plan, edit.node, &edit.change)?;
    pointer_words(alloc, &pointer)
}

fn edit_pointer(
    alloc: Global,
    plan: &Plan,
    node: usize,
    change: &Change,
) -> Result<Vec<PointerStep>, AllocError>
    ensures { IfOk result (λ pointer. map step_value pointer.items ≡ edit_pointer plan.now node change.now) }
{
    match change {
        Change::Name(_) => part_pointer(alloc, node, "name"),
        Change::Kind(_) => part_pointer(alloc, node, "kind"),
        Change::Eid(_) => part_pointer(alloc, node, "eid"),
        Change::Owner(_) => part_pointer(alloc, node, "owner"),
        Change::Pool(_) => part_pointer(alloc, node, "pool"),
        Change::NoTerminus => part_pointer(alloc, node, "terminus"),
        Change::Row(at, _) | Change::LessRow(at) => row_pointer(alloc, node, *at),
        Change::MoreRow(_) => row_pointer(alloc, node, rows_at(plan, node).len()),
        Change::Handle(at, _) => part_of_record(alloc, node, *at, "handle"),
        Change::Next(at, _) => part_of_record(alloc, node, *at, "next"),
        Change::Bytes(at, _) => part_of_record(alloc, node, *at, "bytes"),
    }
}

/// The pointer to what a record says at a key.
fn part_of_record(
    alloc: Global,
    node: usize,
    entry: usize,
    key: &'static str,
) -> Result<Vec<PointerStep>, AllocError>
    ensures { IfOk result (λ pointer. map step_value pointer.items ≡ part_of_record node entry key.now) }
{
    let mut pointer = record_pointer(alloc, node, entry)?;
    pointer.push(PointerStep::Key(key))?;
    Ok(pointer)
}

/// What is to stand there; null where a row is removed.
fn changed_value(alloc: Global, plan: &Plan, change: &Change) -> Result<Value, AllocError> {
    match change {
        Change::Name(name) => Value::try_from_str(alloc, name.text.as_str()),
        Change::Kind(kind) => Value::try_from_str(alloc, kind_word(*kind)),
        Change::Eid(eid) => Ok(Value::from(eid.value)),
        Change::Owner(Some(owner)) => Value::try_from_str(alloc, node_name(plan, *owner)),
        Change::Pool(Some(pool)) => json!(in alloc; {"first": pool.first.value, "size": pool.size}),
        Change::Row(_, row) | Change::MoreRow(row) => json!(in alloc; {
            "first": row.first.value, "next": node_name(plan, row.next), "port": row.port, "size": row.size
        }),
        Change::Owner(None) | Change::Pool(None) | Change::NoTerminus | Change::LessRow(_) => {
            Ok(Value::Null)
        }
        Change::Handle(_, number) | Change::Next(_, number) => Ok(Value::from(*number)),
        Change::Bytes(_, bytes) => Ok(Value::String(hex::encode(alloc, bytes.as_slice())?)),
    }
}
