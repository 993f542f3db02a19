//! The text of the events of a walk.
use mctp_transport::Key;
use net_tables::lookup::node_name;
use plan_values::{Event, Plan};
use std::alloc::{AllocError, Global};

/// The text of a list of events (format 3), an event a line.
pub fn script_text(alloc: Global, plan: &Plan, events: &[Event]) -> Result<String, AllocError> {
    let lines = event_lines(alloc, plan, events)?;
    format!(in alloc; "{{ \"format\": 3, \"events\": [{lines}\n] }}\n")
}

fn event_lines(alloc: Global, plan: &Plan, events: &[Event]) -> Result<String, AllocError> {
    let mut lines = String::new(alloc);
    let [first, rest @ ..] = events else {
        return Ok(lines);
    };
    lines.push_str("\n  ")?;
    lines.push_str(&event_text(alloc, plan, first)?)?;
    for event in rest {
        lines.push_str(",\n  ")?;
        lines.push_str(&event_text(alloc, plan, event)?)?;
    }
    Ok(lines)
}

/// An event of a walk. A walk has neither packets that are put in from outside nor nodes that switch.
fn event_text(alloc: Global, plan: &Plan, event: &Event) -> Result<String, AllocError> {
    match event {
        Event::Walk {
            node,
            eid,
            tag,
            count,
        } => {
            let (node, eid, tag) = (node_name(plan, *node), eid.value, tag.value);
            format!(in alloc;
                "{{ \"do\": \"walk\", \"node\": \"{node}\", \"eid\": {eid}, \"tag\": {tag}, \"count\": {count} }}"
            )
        }
        Event::Ask { walker } => format!(in alloc; "{{ \"do\": \"ask\", \"walker\": {walker} }}"),
        Event::Move { flight, keep } => {
            let keep = truth_word(*keep);
            format!(in alloc; "{{ \"do\": \"move\", \"flight\": {flight}, \"keep\": {keep} }}")
        }
        Event::Lose { flight } => format!(in alloc; "{{ \"do\": \"lose\", \"flight\": {flight} }}"),
        Event::Answer { node } => {
            let node = node_name(plan, *node);
            format!(in alloc; "{{ \"do\": \"answer\", \"node\": \"{node}\" }}")
        }
        Event::Expire { node, key } => expire_text(alloc, node_name(plan, *node), key),
        Event::Collected { walker } => {
            format!(in alloc; "{{ \"do\": \"collected\", \"walker\": {walker} }}")
        }
        Event::Put { .. } | Event::Switch { .. } => Ok(String::new(alloc)),
    }
}

fn expire_text(alloc: Global, node: &str, key: &Key) -> Result<String, AllocError> {
    let (source, tag, owner) = (key.source.value, key.tag.value, u8::from(key.owner));
    format!(in alloc;
        "{{ \"do\": \"expire\", \"node\": \"{node}\", \"source\": {source}, \"tag\": {tag}, \"owner\": {owner} }}"
    )
}

fn truth_word(truth: bool) -> &'static str {
    if truth { "true" } else { "false" }
}
