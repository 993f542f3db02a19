//! Endpoint IDs that devices took and that no node of the plan holds (DSP0236, "Set Endpoint ID").
ghost use Rattle.std.specs.Prelude.{◌≡◌, ◌∷◌, [], IfOk, MatchOption, map, option_map, string_bytes};
ghost use Rattle.mctp_control.{specs.Requests.{command_value}, specs.Responses.{answer_value}};
ghost use Rattle.audited_captures.{specs.Exchanges.{exchange_value}, specs.Lines.{line_value, difference}, specs.Strangers.{asked_eid, taken_eid, IsStranger, IsOfNone, stranger_line, AreLinesOf, AreStrangerLines}};

use crate::exchanges::Exchange;
use crate::lines::{Line, add_difference};
use mctp_control::{ControlAnswer, ControlCommand};
use mctp_transport::Eid;
use net_tables::lookup::is_held;
use plan_values::Plan;
use std::alloc::{AllocError, Global};

/// A line for each answer to Set Endpoint ID of a device whose endpoint ID no node holds, neither the one that it was
/// to take nor the one that it has.
pub fn stranger_lines(
    alloc: Global,
    plan: &Plan,
    exchanges: &[Exchange],
) -> Result<Vec<Line>, AllocError>
    ensures { IfOk result (λ lines. AreStrangerLines plan.now (map exchange_value exchanges.now) (map line_value lines.items)) }
{
    let mut lines = Vec::new(alloc);
    for exchange in exchanges {
        let mut more = lines_of(alloc, plan, exchange)?;
        lines.append(&mut more)?;
    }
    Ok(lines)
}

/// What is told of one answer.
fn lines_of(alloc: Global, plan: &Plan, exchange: &Exchange) -> Result<Vec<Line>, AllocError>
    ensures { IfOk result (λ lines. AreLinesOf plan.now (exchange_value exchange.now) (map line_value lines.items)) }
{
    match stranger(plan, exchange) {
        Some(eid) => line_of(alloc, eid),
        None => Ok(Vec::new(alloc)),
    }
}

fn line_of(alloc: Global, eid: Eid) -> Result<Vec<Line>, AllocError>
    ensures { IfOk result (λ lines. map line_value lines.items ≡ stranger_line eid.value ∷ []) }
{
    let text = stranger_text(alloc, eid)?;
    let mut lines = Vec::new(alloc);
    add_difference(&mut lines, text)?;
    Ok(lines)
}

fn stranger_text(alloc: Global, eid: Eid) -> Result<String, AllocError>
    ensures { IfOk result (λ text. difference (string_bytes text) ≡ stranger_line eid.value) }
{
    let eid = eid.value;
    format!(in alloc; "set eid {eid}: no node holds {eid}")
}

/// The endpoint ID of a device that no node of the plan stands for, if it is one that answers.
fn stranger(plan: &Plan, exchange: &Exchange) -> Option<Eid>
    ensures { MatchOption result (IsOfNone plan.now (exchange_value exchange.now)) (λ eid. IsStranger plan.now (exchange_value exchange.now) eid.value) }
{
    let asked = asked_eid(exchange.command)?;
    let taken = taken_eid(exchange.answer)?;
    if taken.value == 0 || is_held(plan, asked) || is_held(plan, taken) {
        return None;
    }
    Some(taken)
}

fn asked_eid(command: &ControlCommand) -> Option<Eid>
    ensures { option_map (λ eid. eid.value) result ≡ asked_eid (command_value command.now) }
{
    match command {
        ControlCommand::SetEndpointId { eid, .. } => Some(*eid),
        ControlCommand::GetEndpointId => None,
        ControlCommand::AllocateEndpointIds { .. } => None,
        ControlCommand::GetRoutingTableEntries { .. } => None,
    }
}

fn taken_eid(answer: &ControlAnswer) -> Option<Eid>
    ensures { option_map (λ eid. eid.value) result ≡ taken_eid (answer_value answer.now) }
{
    match answer {
        ControlAnswer::SetEndpointId { eid, .. } => Some(*eid),
        ControlAnswer::GetEndpointId { .. } => None,
        ControlAnswer::AllocateEndpointIds { .. } => None,
        ControlAnswer::GetRoutingTableEntries { .. } => None,
        ControlAnswer::Failed { .. } => None,
    }
}
