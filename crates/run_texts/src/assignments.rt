//! What the command `assign` prints.
ghost use Rattle.std.specs.Prelude.{◌≡◌, map, IfOk, string_bytes};
ghost use Rattle.hex.specs.Hex.{encode_lower};
ghost use Rattle.mctp_control.specs.Requests.{request_bytes, request_value};
ghost use Rattle.net_sim.specs.Assignments.{assignment_value};
ghost use Rattle.run_texts.specs.AssignmentLines.{assignment_lines, assignment_text};

use mctp_control::Request;
use mctp_transport::Wire;
use net_sim::Assignment;
use net_tables::lookup::{bus_name, node_name};
use plan_values::Plan;
use std::alloc::{AllocError, Global};

/// The requests of an assignment, each in a line of its own.
pub fn assignment_lines(
    alloc: Global,
    plan: &Plan,
    list: &[Assignment],
) -> Result<String, AllocError>
    ensures { IfOk result (λ lines. string_bytes lines ≡ assignment_lines plan.now (map assignment_value list.now)) }
{
    let mut lines = String::new(alloc);
    for assignment in list {
        lines.push_str(&assignment_line(alloc, plan, assignment)?)?;
    }
    Ok(lines)
}

fn assignment_line(
    alloc: Global,
    plan: &Plan,
    assignment: &Assignment,
) -> Result<String, AllocError>
    ensures { IfOk result (λ line. string_bytes line ≡ assignment_text plan.now (assignment_value assignment.now)) }
{
    let bus = bus_name(plan, assignment.bus);
    let node = node_name(plan, assignment.node);
    let request = request_hex(alloc, &assignment.body)?;
    format!(in alloc; "{bus} {node} {request}\n")
}

/// The bytes of a request in hex.
fn request_hex(alloc: Global, request: &Request) -> Result<String, AllocError>
    ensures { IfOk result (λ hex. string_bytes hex ≡ encode_lower (request_bytes (request_value request.now))) }
{
    let mut bytes = vec![in alloc; 0; request.len()]?;
    let _ = request.put(&mut bytes);
    hex::encode(alloc, bytes.as_slice())
}
