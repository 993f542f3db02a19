//! What the command `trace` prints.
ghost use Rattle.std.specs.Prelude.{◌≡◌, length, IfOk, string_bytes};
ghost use Rattle.net_tables.specs.Names.{address_on};
ghost use Rattle.plan_texts.specs.LineParts.{address_text, bus_text};
ghost use Rattle.question_texts.specs.WayLines.{bus_of_step, steps_from, hop_text, step_line, end_line, trace_text};

use net_questions::{End, Way, WayStep};
use net_tables::lookup::{address_on, node_name, ports_at};
use plan_texts::{address_text, bus_text};
use plan_values::Plan;
use std::alloc::{AllocError, Global};

/// The steps of a packet's way, each in a line of its own and numbered from 1, and a line that says how the way ends.
pub fn trace_lines(alloc: Global, plan: &Plan, way: &Way) -> Result<String, AllocError>
    ensures { IfOk result (λ lines. string_bytes lines ≡ trace_text plan.now way.now.steps.items way.now.last way.now.end) }
{
    let mut lines = steps_lines(alloc, plan, &way.steps)?;
    lines.push_str(&end_line(alloc, plan, way)?)?;
    Ok(lines)
}

/// The line of each step.
fn steps_lines(alloc: Global, plan: &Plan, steps: &[WayStep]) -> Result<String, AllocError>
    ensures { IfOk result (λ lines. string_bytes lines ≡ steps_from plan.now 1 steps.now) }
{
    let mut lines = String::new(alloc);
    for (index, step) in steps.iter().enumerate() {
        lines.push_str(&step_line(alloc, plan, index + 1, step)?)?;
    }
    Ok(lines)
}

/// The line of the step of a number.
fn step_line(
    alloc: Global,
    plan: &Plan,
    number: usize,
    step: &WayStep,
) -> Result<String, AllocError>
    ensures { IfOk result (λ line. string_bytes line ≡ step_line plan.now number step.now) }
{
    let node = node_name(plan, step.node);
    let bus = bus_name_of_step(plan, step);
    let address = address_of_step(alloc, plan, step)?;
    let next = node_name(plan, step.hop.next);
    hop_text(alloc, number, node, step.hop.port, bus, &address, next)
}

/// A hop's number, the names of its node, its bus and the next node, and the address of that one, in hex.
fn hop_text(
    alloc: Global,
    number: usize,
    node: &str,
    port: u8,
    bus: &str,
    address: &str,
    next: &str,
) -> Result<String, AllocError>
    ensures { IfOk result (λ text. string_bytes text ≡ hop_text number node.now port bus.now address.now next.now) }
{
    format!(in alloc; "{number} {node} port {port} bus {bus} address {address} to {next}\n")
}

/// The name of the bus over which a step goes, or a dash where there is none.
fn bus_name_of_step<'a>(plan: &'a Plan, step: &WayStep) -> &'a str
    ensures { result.now ≡ bus_text plan.now (bus_of_step plan.now step.now) }
{
    bus_text(plan, bus_of_step(plan, step))
}

/// The address to which a step goes, in hex, or a dash where it is empty.
fn address_of_step(alloc: Global, plan: &Plan, step: &WayStep) -> Result<String, AllocError>
    ensures { IfOk result (λ text. string_bytes text ≡ address_text (address_on plan.now step.now.hop.next (bus_of_step plan.now step.now))) }
{
    let address = address_on(plan, step.hop.next, bus_of_step(plan, step));
    address_text(alloc, address)
}

/// How a way ends.
fn end_line(alloc: Global, plan: &Plan, way: &Way) -> Result<String, AllocError>
    ensures { IfOk result (λ line. string_bytes line ≡ end_line plan.now (length way.now.steps.items) way.now.last way.now.end) }
{
    match way.end {
        End::Arrives => {
            let hops = way.steps.len();
            format!(in alloc; "hops {hops}\n")
        }
        End::Stops(why) => {
            let node = node_name(plan, way.last);
            let code = why.code();
            format!(in alloc; "stops at {node} {code}\n")
        }
    }
}

/// The bus of the port by which a step leaves.
fn bus_of_step(plan: &Plan, step: &WayStep) -> Option<usize>
    ensures { result ≡ bus_of_step plan.now step.now }
{
    let port = ports_at(plan, step.node).get(usize::from(step.hop.port))?;
    Some(port.bus)
}
