//! The edits that `explain` proposes, with what is so once they are made.
ghost use Rattle.std.{specs.Prelude.{◌≡◌, IfOk, string_bytes}, specs.List.{flat_map}};
ghost use Rattle.explanation_texts.specs.EditLines.{edit_text, edits_text, left_text, owner_value, place_text, pool_value, quoted, row_value, tried_text, value_text, verb_of, word_of};

use net_explained::{Change, Edit, Tried};
use net_rules::CertifyError;
use net_tables::lookup::{kind_word, node_name, rows_at};
use plan_texts::obstacle_line;
use plan_values::{Plan, Pool, Row};
use std::alloc::{AllocError, Global};

/// The lines of edits that were tried, in their order.
pub fn edit_lines(alloc: Global, plan: &Plan, edits: &[Tried]) -> Result<String, AllocError>
    ensures { IfOk result (λ lines. string_bytes lines ≡ edits_text plan.now edits.now) }
{
    let mut lines = String::new(alloc);
    for tried in edits {
        lines.push_str(&tried_line(alloc, plan, tried)?)?;
    }
    Ok(lines)
}

/// An edit, and what is so once it is made.
fn tried_line(alloc: Global, plan: &Plan, tried: &Tried) -> Result<String, AllocError>
    ensures { IfOk result (λ lines. string_bytes lines ≡ tried_text plan.now tried.now) }
{
    let mut lines = edit_line(alloc, plan, &tried.edit)?;
    lines.push_str(&left_line(alloc, plan, &tried.left)?)?;
    Ok(lines)
}

/// That a certificate fits then, or what rules certificates out.
fn left_line(alloc: Global, plan: &Plan, left: &Option<CertifyError>) -> Result<String, AllocError>
    ensures { IfOk result (λ line. string_bytes line ≡ left_text plan.now left.now) }
{
    match left {
        None => "then: yes\n".to_string(alloc),
        Some(next) => {
            let mut line = "then: ".to_string(alloc)?;
            line.push_str(&obstacle_line(alloc, plan, next)?)?;
            Ok(line)
        }
    }
}

/// The place in the plan's text, by its JSON pointer, the node and the value that is to stand there.
pub fn edit_line(alloc: Global, plan: &Plan, edit: &Edit) -> Result<String, AllocError>
    ensures { IfOk result (λ line. string_bytes line ≡ edit_text plan.now edit.now) }
{
    let node = edit.node;
    let name = node_name(plan, node);
    let verb = verb_of(&edit.change);
    let word = word_of(&edit.change);
    let place = place_text(alloc, plan, node, &edit.change)?;
    let value = value_text(alloc, plan, &edit.change)?;
    format!(in alloc; "Edit: {verb} /nodes/{node}/{place} of {name}{word}{value}\n")
}

/// What is done to a value.
fn verb_of(change: &Change) -> &'static str
    ensures { result.now ≡ verb_of change.now }
{
    match change {
        Change::LessRow(_) => "remove",
        Change::MoreRow(_) => "insert",
        _ => "set",
    }
}

/// The word before what is to stand there.
fn word_of(change: &Change) -> &'static str
    ensures { result.now ≡ word_of change.now }
{
    match change {
        Change::LessRow(_) => "",
        Change::MoreRow(_) => " as ",
        _ => " to ",
    }
}

/// Where in a node's object a change is.
fn place_text(
    alloc: Global,
    plan: &Plan,
    node: usize,
    change: &Change,
) -> Result<String, AllocError>
    ensures { IfOk result (λ text. string_bytes text ≡ place_text plan.now node change.now) }
{
    match change {
        Change::Name(_) => "name".to_string(alloc),
        Change::Kind(_) => "kind".to_string(alloc),
        Change::Eid(_) => "eid".to_string(alloc),
        Change::Owner(_) => "owner".to_string(alloc),
        Change::Pool(_) => "pool".to_string(alloc),
        Change::NoTerminus => "terminus".to_string(alloc),
        Change::Row(at, _) | Change::LessRow(at) => format!(in alloc; "rows/{at}"),
        Change::MoreRow(_) => {
            let at = rows_at(plan, node).len();
            format!(in alloc; "rows/{at}")
        }
        Change::Handle(at, _) => format!(in alloc; "terminus/records/{at}/handle"),
        Change::Next(at, _) => format!(in alloc; "terminus/records/{at}/next"),
        Change::Bytes(at, _) => format!(in alloc; "terminus/records/{at}/bytes"),
    }
}

/// What is to stand there, as a plan's text has it.
pub fn value_text(alloc: Global, plan: &Plan, change: &Change) -> Result<String, AllocError>
    ensures { IfOk result (λ text. string_bytes text ≡ value_text plan.now change.now) }
{
    match change {
        Change::Name(name) => quoted(alloc, name.text.as_str()),
        Change::Kind(kind) => quoted(alloc, kind_word(*kind)),
        Change::Eid(eid) => {
            let eid = eid.value;
            format!(in alloc; "{eid}")
        }
        Change::Owner(owner) => owner_value(alloc, plan, *owner),
        Change::Pool(pool) => pool_value(alloc, *pool),
        Change::NoTerminus => "null".to_string(alloc),
        Change::Row(_, row) | Change::MoreRow(row) => row_value(alloc, plan, row),
        Change::LessRow(_) => "".to_string(alloc),
        Change::Handle(_, number) | Change::Next(_, number) => format!(in alloc; "{number}"),
        Change::Bytes(_, bytes) => quoted(alloc, &hex::encode(alloc, bytes.as_slice())?),
    }
}

/// An owner's name in quotes.
fn owner_value(alloc: Global, plan: &Plan, owner: Option<usize>) -> Result<String, AllocError>
    ensures { IfOk result (λ text. string_bytes text ≡ owner_value plan.now owner) }
{
    match owner {
        Some(owner) => quoted(alloc, node_name(plan, owner)),
        None => "null".to_string(alloc),
    }
}

/// A pool as an object.
fn pool_value(alloc: Global, pool: Option<Pool>) -> Result<String, AllocError>
    ensures { IfOk result (λ text. string_bytes text ≡ pool_value pool) }
{
    match pool {
        Some(pool) => {
            let (first, size) = (pool.first.value, pool.size);
            format!(in alloc; "{{ \"first\": {first}, \"size\": {size} }}")
        }
        None => "null".to_string(alloc),
    }
}

/// A row as an object.
fn row_value(alloc: Global, plan: &Plan, row: &Row) -> Result<String, AllocError>
    ensures { IfOk result (λ text. string_bytes text ≡ row_value plan.now row.now) }
{
    let (first, size, port) = (row.first.value, row.size, row.port);
    let next = node_name(plan, row.next);
    format!(in alloc;
        "{{ \"first\": {first}, \"size\": {size}, \"port\": {port}, \"next\": \"{next}\" }}"
    )
}

/// A text in quotes, which has none itself.
fn quoted(alloc: Global, text: &str) -> Result<String, AllocError>
    ensures { IfOk result (λ written. string_bytes written ≡ quoted text.now) }
{
    format!(in alloc; "\"{text}\"")
}
