//! What is told of packets that aren't planned.
ghost use Rattle.std.{specs.Prelude.{◌≡◌, ◌++◌, ◌==◌, IfOk, OnOk, List, map, length, option_map, string_bytes, codes}, specs.List.{flat_map}};
ghost use Rattle.bus_captures.specs.Values.{entry_value};
ghost use Rattle.mctp_transport.specs.PacketValues.{IsUnit};
ghost use Rattle.net_questions.specs.declared.step.WayStep.{WayStep};
ghost use Rattle.net_tables.specs.Names.{node_name, bus_name};
ghost use Rattle.audited_captures.{specs.Counts.{AreCounts}, specs.Judging.{unplanned_value}, specs.Lines.{line_value, difference}, specs.Packets.{NumberedPacket, numbered_packet}, specs.TrafficLines.{bus_text, step_bus, by_words, over_words, nobody_words, why_words, more_words, IsLineOf, IsOneLine, AreLinesOf, AreTrafficLines, IsTrafficOf}};

use crate::counts::{FirstPackets, first_packets};
use crate::lines::{Counted, Line, add_difference};
use crate::names::name_of;
use crate::packets::{CapturedPacket, packets_of};
use crate::traffic::{Unplanned, judged};
use bus_captures::Capture;
use net_check::Checked;
use net_questions::WayStep;
use net_tables::lookup::{bus_at, bus_name, node_name};
use plan_values::Plan;
use std::alloc::{AllocError, Global};

/// What is told of the packets of a capture that a checked plan doesn't have on a bus, or on any bus where none is
/// given, and how many packets the capture has. A line tells all packets from an endpoint ID to another, in the order of
/// the first packets.
pub fn traffic_lines(
    alloc: Global,
    checked: &Checked,
    bus: Option<usize>,
    capture: &Capture,
) -> Result<Counted, AllocError>
    ensures { IfOk result (λ traffic. IsTrafficOf checked.now.0 bus (map entry_value capture.now.entries.items) (map line_value traffic.lines.items) traffic.count) }
{
    let packets = packets_of(alloc, unit_of(checked), capture)?;
    let firsts = first_packets(alloc, &packets)?;
    let lines = lines_of_firsts(alloc, checked, bus, &firsts)?;
    Ok(Counted {
        lines,
        count: packets.len(),
    })
}

/// The transmission unit of a checked plan, in bytes.
pub fn unit_of(checked: &Checked) -> usize
    ensures unit { result ≡ checked.now.0.unit }
    ensures bounds { IsUnit result }
{
    usize::from(checked.plan().unit)
}

fn lines_of_firsts(
    alloc: Global,
    checked: &Checked,
    bus: Option<usize>,
    firsts: &FirstPackets,
) -> Result<Vec<Line>, AllocError>
    requires { length firsts.now.counts.items ≡ 65536 }
    ensures { (packets : List NumberedPacket) → AreCounts packets firsts.now.counts.items
        → IfOk result (λ lines. AreTrafficLines checked.now.0 bus packets (map numbered_packet firsts.now.packets.items) (map line_value lines.items)) }
{
    let mut lines = Vec::new(alloc);
    for first in firsts.packets.iter() {
        let mut more = lines_of(alloc, checked, bus, first, firsts.count_like(first))?;
        lines.append(&mut more)?;
    }
    Ok(lines)
}

/// What is told of so many packets that go the way of the first of them.
fn lines_of(
    alloc: Global,
    checked: &Checked,
    bus: Option<usize>,
    first: &CapturedPacket,
    count: usize,
) -> Result<Vec<Line>, AllocError>
    ensures { IfOk result (λ lines. AreLinesOf checked.now.0 bus (numbered_packet first.now) count (map line_value lines.items)) }
{
    let why = judged(alloc, checked, bus, first.source, first.destination)?;
    match why {
        None => Ok(Vec::new(alloc)),
        Some(why) => line_of(alloc, checked.plan(), first, count, &why),
    }
}

fn line_of(
    alloc: Global,
    plan: &Plan,
    first: &CapturedPacket,
    count: usize,
    why: &Unplanned,
) -> Result<Vec<Line>, AllocError>
    ensures { IfOk result (λ lines. IsOneLine plan.now (numbered_packet first.now) count (unplanned_value why.now) (map line_value lines.items)) }
{
    let text = packets_text(alloc, plan, first, count, why)?;
    let mut lines = Vec::new(alloc);
    add_difference(&mut lines, text)?;
    Ok(lines)
}

fn packets_text(
    alloc: Global,
    plan: &Plan,
    first: &CapturedPacket,
    count: usize,
    why: &Unplanned,
) -> Result<String, AllocError>
    ensures { IfOk result (λ text. IsLineOf plan.now (numbered_packet first.now) count (unplanned_value why.now) (difference (string_bytes text))) }
{
    let number = first.number;
    let more = more_words(alloc, count)?;
    let source = name_of(alloc, plan, first.source)?;
    let destination = name_of(alloc, plan, first.destination)?;
    let why = why_words(
        alloc,
        plan,
        first.source.value,
        first.destination.value,
        why,
    )?;
    format!(in alloc; "packet {number}{more} from {source} to {destination}: {why}")
}

/// How many packets there are beside the first.
fn more_words(alloc: Global, count: usize) -> Result<String, AllocError>
    ensures { IfOk result (λ text. string_bytes text ≡ more_words count) }
{
    if count == 1 {
        return Ok(String::new(alloc));
    }
    let more = count.saturating_sub(1);
    format!(in alloc; " and {more} more")
}

fn why_words(
    alloc: Global,
    plan: &Plan,
    source: u8,
    destination: u8,
    why: &Unplanned,
) -> Result<String, AllocError>
    ensures { IfOk result (λ text. string_bytes text ≡ why_words plan.now source destination (unplanned_value why.now)) }
{
    match why {
        Unplanned::NoSender => format!(in alloc; "no node holds {source}"),
        Unplanned::NoReceiver => format!(in alloc; "no node holds {destination}"),
        Unplanned::Nobody => nobody_words(alloc, source, destination),
        Unplanned::NoWay => String::from_str(alloc, "no way planned"),
        Unplanned::Elsewhere(steps) => way_words(alloc, plan, steps),
    }
}

/// That no node holds either endpoint ID.
fn nobody_words(alloc: Global, source: u8, destination: u8) -> Result<String, AllocError>
    ensures { IfOk result (λ text. string_bytes text ≡ nobody_words source destination) }
{
    if source == destination {
        return format!(in alloc; "no node holds {source}");
    }
    format!(in alloc; "no node holds {source} or {destination}")
}

fn way_words(alloc: Global, plan: &Plan, steps: &[WayStep]) -> Result<String, AllocError>
    ensures { IfOk result (λ text. string_bytes text ≡ codes "planned" ++ (by_words plan.now steps.now ++ over_words plan.now steps.now)) }
{
    let by = by_words(alloc, plan, steps)?;
    let over = over_words(alloc, plan, steps)?;
    format!(in alloc; "planned{by}{over}")
}

/// The nodes that forward a packet on its way: those of all steps but the first.
fn by_words(alloc: Global, plan: &Plan, steps: &[WayStep]) -> Result<String, AllocError>
    ensures { IfOk result (λ text. string_bytes text ≡ by_words plan.now steps.now) }
{
    let [_, second, later @ ..] = steps else {
        return Ok(String::new(alloc));
    };
    let mut text = String::from_str(alloc, " by ")?;
    text.push_str(node_name(plan, second.node))?;
    push_nodes(&mut text, plan, later)?;
    Ok(text)
}

fn push_nodes(text: &mut String, plan: &Plan, steps: &[WayStep]) -> Result<(), AllocError>
    ensures { OnOk result (string_bytes text.new ≡ string_bytes text.old ++ flat_map (λ (later : WayStep). codes ", " ++ node_name plan.now later.node) steps.now) }
{
    for step in steps {
        text.push_str(", ")?;
        text.push_str(node_name(plan, step.node))?;
    }
    Ok(())
}

/// The buses over which a packet goes on its way.
fn over_words(alloc: Global, plan: &Plan, steps: &[WayStep]) -> Result<String, AllocError>
    ensures { IfOk result (λ text. string_bytes text ≡ over_words plan.now steps.now) }
{
    let [first, later @ ..] = steps else {
        return String::from_str(alloc, " over no bus");
    };
    let mut text = String::from_str(alloc, " over ")?;
    text.push_str(step_bus(plan, first))?;
    push_buses(&mut text, plan, later)?;
    Ok(text)
}

fn push_buses(text: &mut String, plan: &Plan, steps: &[WayStep]) -> Result<(), AllocError>
    ensures { OnOk result (string_bytes text.new ≡ string_bytes text.old ++ flat_map (λ (later : WayStep). codes ", " ++ step_bus plan.now later) steps.now) }
{
    for step in steps {
        text.push_str(", ")?;
        text.push_str(step_bus(plan, step))?;
    }
    Ok(())
}

/// The name of the bus over which a step goes; a dash where there is none.
fn step_bus<'a>(plan: &'a Plan, step: &WayStep) -> &'a str
    ensures { result.now ≡ step_bus plan.now step.now }
{
    match bus_at(plan, step.node, step.hop.port) {
        Some(bus) => bus_name(plan, bus),
        None => "-",
    }
}
