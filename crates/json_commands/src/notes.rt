//! A note: what is told of one fault, of one thing that looks wrong, or of a text that can't be read.
ghost use Rattle.std.specs.Prelude.{◌≡◌, IfOk};
ghost use Rattle.serde_json.specs.View.{view};
ghost use Rattle.command_questions.specs.declared.form.Form.TheVariants.{Sarif};
ghost use Rattle.json_commands.{specs.Answers.{IsItem}, specs.Ways.{node_data}};

use crate::lists::list_of_one;
use crate::places::number_or_null;
use command_questions::Form;
use mctp_transport::Eid;
use net_tables::lookup::node_name;
use plan_values::Plan;
use serde_json::{Value, json};
use std::alloc::{AllocError, Global};

/// What a note is about: its kind, its code, endpoint IDs from one to another, and a row or a record by its index.
#[derive(Clone, Copy)]
pub struct Subject {
    pub kind: &'static str,
    pub code: &'static str,
    pub eids: Option<(Eid, Eid)>,
    pub entry: Option<usize>,
}

/// What a note is about, by its parts.
pub fn about(
    kind: &'static str,
    code: &'static str,
    eids: Option<(Eid, Eid)>,
    entry: Option<usize>,
) -> Subject
    ensures { result.code.now ≡ code.now }
{
    Subject {
        kind,
        code,
        eids,
        entry,
    }
}

/// A note, by its subject, the nodes, where it is, where the others are that are involved, and what is said.
pub fn note_value(
    alloc: Global,
    form: Form,
    subject: &Subject,
    nodes: Value,
    place: Value,
    related: Value,
    words: &str,
) -> Result<Value, AllocError>
    ensures { IfOk result (λ value. IsItem form subject.now.code.now (view place) (view value)) }
{
    match form {
        Form::Json => json!(in alloc; {
            "code": subject.code, "eids": eids_value(alloc, subject.eids)?, "entry": number_or_null(subject.entry),
            "kind": subject.kind, "nodes": nodes, "place": place, "related": related,
            "sentences": lines_value(alloc, words)?
        }),
        Form::Sarif => result_value(alloc, subject.code, place, related, words),
    }
}

/// A result (SARIF 2.1.0, section 3.27). Its message has no end of its last line.
fn result_value(
    alloc: Global,
    code: &str,
    place: Value,
    related: Value,
    words: &str,
) -> Result<Value, AllocError>
    ensures { IfOk result (λ value. IsItem Sarif code.now (view place) (view value)) }
{
    let locations = list_of_one(alloc, place)?;
    let message = words.strip_suffix("\n").unwrap_or(words);
    json!(in alloc; {
        "level": "error", "locations": locations, "message": {"text": message}, "relatedLocations": related,
        "ruleId": code
    })
}

/// The lines of a text, as a JSON list.
pub fn lines_value(alloc: Global, text: &str) -> Result<Value, AllocError> {
    let mut list = Vec::new(alloc);
    for line in text.lines() {
        list.push(Value::try_from_str(alloc, line)?)?;
    }
    Ok(Value::Array(list))
}

/// Endpoint IDs from one to another, or null.
fn eids_value(alloc: Global, eids: Option<(Eid, Eid)>) -> Result<Value, AllocError> {
    match eids {
        Some((first, last)) => json!(in alloc; {"first": first.value, "last": last.value}),
        None => Ok(Value::Null),
    }
}

/// The nodes of a plan at these indices.
pub fn nodes_value(alloc: Global, plan: &Plan, nodes: &[usize]) -> Result<Value, AllocError> {
    let mut list = Vec::new(alloc);
    for &node in nodes {
        list.push(node_value(alloc, plan, node)?)?;
    }
    Ok(Value::Array(list))
}

/// A node of a plan: its index and its name.
pub fn node_value(alloc: Global, plan: &Plan, node: usize) -> Result<Value, AllocError>
    ensures { IfOk result (λ value. view value ≡ node_data plan.now node) }
{
    json!(in alloc; {"index": node, "name": node_name(plan, node)})
}
