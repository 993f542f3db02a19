//! The names of nodes behind packets.
ghost use Rattle.std.{specs.Prelude.{◌≡◌, ◌++◌, IfOk, OnOk, length, option_map, string_bytes, codes}, specs.List.{flat_map}};
ghost use Rattle.mctp_transport.{specs.PacketValues.{IsUnit}, specs.Packets.{packet_value_of}};
ghost use Rattle.plan_values.specs.NodeValues.{name_bytes};
ghost use Rattle.decoded_texts.{specs.Decoding.{unit_by}, specs.Names.{holder_words, end_words, names_of}, specs.NameTables.{AreEndWords, AreNames}};

use mctp_transport::{BASELINE_UNIT, PacketView};
use plan_values::{Node, Plan};
use std::alloc::{AllocError, Global};

/// Who holds which endpoint ID by a plan, in words.
#[derive(Drop)]
pub struct Names<'p> {
    pub plan: &'p Plan,
    /// For each endpoint ID that may be a source.
    from: Vec<String>,
    /// For each that may be a destination.
    to: Vec<String>,
    ghost named: { AreNames plan.now from.items to.items },
}

impl<'p> Names<'p> {
    ghost use Rattle.std.specs.Prelude.{◌≡◌, IfOk};
    ghost use Rattle.decoded_texts.specs.NameTables.{AreNames};

    /// The names of a plan.
    pub fn of(alloc: Global, plan: &'p Plan) -> Result<Names<'p>, AllocError>
        ensures { IfOk result (λ names. names.plan.now ≡ plan.now) }
    {
        let from = end_words(alloc, plan, " from ")?;
        let to = end_words(alloc, plan, " to ")?;
        Ok(Names { plan, from, to })
    }
}

/// For each endpoint ID the words of those who hold it.
fn end_words(alloc: Global, plan: &Plan, words: &str) -> Result<Vec<String>, AllocError>
    ensures { IfOk result (λ table. AreEndWords plan.now words.now table.items) }
{
    let mut table = Vec::new(alloc);
    for eid in 0..=255 {
        table.push(words_of(alloc, plan, words, eid)?)?;
    }
    Ok(table)
}

/// The words of those who hold an endpoint ID.
fn words_of(alloc: Global, plan: &Plan, words: &str, eid: u8) -> Result<String, AllocError>
    ensures { IfOk result (λ text. string_bytes text ≡ end_words plan.now words.now eid) }
{
    let mut text = String::new(alloc);
    for node in plan.nodes.iter() {
        add_holder(&mut text, words, eid, node)?;
    }
    Ok(text)
}

/// Adds the words of a node, if it holds the endpoint ID.
fn add_holder(text: &mut String, words: &str, eid: u8, node: &Node) -> Result<(), AllocError>
    ensures { OnOk result (string_bytes text.new ≡ string_bytes text.old ++ holder_words words.now eid node.now) }
{
    if node.eid.value == eid {
        text.push_str(words)?;
        text.push_str(node.name.text.as_str())?;
    }
    Ok(())
}

/// The transmission unit of captured packets: that of the plan, or where there is none the baseline's 64 bytes.
pub fn unit_by(names: Option<&Names>) -> usize
    ensures unit { result ≡ unit_by (option_map (λ n. n.now.plan.now) names.entry) }
    ensures bounds { IsUnit result }
{
    match names {
        None => BASELINE_UNIT,
        Some(names) => usize::from(names.plan.unit),
    }
}

/// Adds the names behind a packet, if there is a plan.
pub fn push_names(
    text: &mut String,
    names: Option<&Names>,
    packet: &PacketView,
) -> Result<(), AllocError>
    ensures { OnOk result (string_bytes text.new ≡ string_bytes text.old ++ names_of (option_map (λ n. n.now.plan.now) names.entry) (packet_value_of packet.now)) }
{
    let Some(names) = names else {
        return Ok(());
    };
    let source = packet.header.source.value as usize;
    let destination = packet.header.destination.value as usize;
    text.push_str(&names.from[source])?;
    text.push_str(&names.to[destination])
}
