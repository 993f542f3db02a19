//! The lines that tell how two plans differ.
ghost use Rattle.std.{specs.Prelude.{◌≡◌, IfOk, option_map, string_bytes}, specs.List.{flat_map}};
ghost use Rattle.plan_differences.{specs.Facts.{fact_value}, specs.DifferenceLines.{difference_text, fact_text, name_or_dash, said_text, thing_text}};

use crate::difference::Difference;
use crate::fact::Fact;
use net_tables::lookup::kind_word;
use plan_texts::address_text;
use std::alloc::{AllocError, Global};

/// A line for each difference.
pub fn difference_lines(alloc: Global, differences: &[Difference]) -> Result<String, AllocError>
    ensures { IfOk result (λ lines. string_bytes lines ≡ flat_map difference_text differences.now) }
{
    let mut lines = String::new(alloc);
    for difference in differences {
        lines.push_str(&difference_line(alloc, difference)?)?;
    }
    Ok(lines)
}

fn difference_line(alloc: Global, difference: &Difference) -> Result<String, AllocError>
    ensures { IfOk result (λ line. string_bytes line ≡ difference_text difference.now) }
{
    match difference {
        Difference::Removed(old) => {
            let thing = thing_text(alloc, old)?;
            let said = said_text(alloc, old)?;
            format!(in alloc; "removed {thing}: {said}\n")
        }
        Difference::Changed(old, new) => {
            let thing = thing_text(alloc, old)?;
            let before = said_text(alloc, old)?;
            let after = said_text(alloc, new)?;
            format!(in alloc; "changed {thing}: {before} -> {after}\n")
        }
        Difference::Added(new) => {
            let thing = thing_text(alloc, new)?;
            let said = said_text(alloc, new)?;
            format!(in alloc; "added {thing}: {said}\n")
        }
    }
}

/// All that a fact says.
pub fn fact_text(alloc: Global, fact: &Fact) -> Result<String, AllocError>
    ensures { IfOk result (λ text. string_bytes text ≡ fact_text (fact_value fact.now)) }
{
    let thing = thing_text(alloc, fact)?;
    let said = said_text(alloc, fact)?;
    format!(in alloc; "{thing}: {said}")
}

/// The words for the thing of a fact.
pub fn thing_text(alloc: Global, fact: &Fact) -> Result<String, AllocError>
    ensures { IfOk result (λ text. string_bytes text ≡ thing_text (fact_value fact.now)) }
{
    match *fact {
        Fact::Unit(_) => "unit".to_string(alloc),
        Fact::Bus { name, .. } => format!(in alloc; "bus {name}"),
        Fact::Node { name, .. } => format!(in alloc; "node {name}"),
        Fact::Pool { node, .. } => format!(in alloc; "pool of {node}"),
        Fact::Port { node, index, .. } => format!(in alloc; "port {index} of {node}"),
        Fact::Row { node, first, .. } => {
            let first = first.value;
            format!(in alloc; "row {first} of {node}")
        }
        Fact::Terminus { node, .. } => format!(in alloc; "terminus of {node}"),
        Fact::Record { node, handle, .. } => format!(in alloc; "record {handle} of {node}"),
    }
}

/// What a fact says of its thing.
fn said_text(alloc: Global, fact: &Fact) -> Result<String, AllocError>
    ensures { IfOk result (λ text. string_bytes text ≡ said_text (fact_value fact.now)) }
{
    match *fact {
        Fact::Unit(unit) => format!(in alloc; "{unit}"),
        Fact::Bus { binding, media, .. } => format!(in alloc; "binding {binding} media {media}"),
        Fact::Node {
            kind,
            eid,
            owner,
            ..
        } => {
            let kind = kind_word(kind);
            let eid = eid.value;
            let owner = name_or_dash(owner);
            format!(in alloc; "{kind} eid {eid} owner {owner}")
        }
        Fact::Pool { pool, .. } => {
            let first = pool.first.value;
            let size = pool.size;
            format!(in alloc; "first {first} size {size}")
        }
        Fact::Port { bus, address, .. } => {
            let address = address_text(alloc, address)?;
            format!(in alloc; "bus {bus} address {address}")
        }
        Fact::Row {
            size,
            port,
            next,
            ..
        } => format!(in alloc; "size {size} port {port} next {next}"),
        Fact::Terminus { tid, .. } => format!(in alloc; "tid {tid}"),
        Fact::Record { next, bytes, .. } => {
            let bytes = hex::encode(alloc, bytes)?;
            format!(in alloc; "next {next} bytes {bytes}")
        }
    }
}

fn name_or_dash(name: Option<&str>) -> &str
    ensures { result.now ≡ name_or_dash (option_map (λ n. n.now) name.entry) }
{
    match name {
        Some(name) => name,
        None => "-",
    }
}
