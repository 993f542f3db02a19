//! The lines of control messages.

use mctp_control::{ControlAnswer, ControlCommand, Request, Response};
use mctp_transport::Wire;
use std::alloc::{AllocError, Global};

/// The line of the control message that the bytes are. None where they are none of the four commands.
pub fn control_text(alloc: Global, message: &[u8]) -> Result<Option<String>, AllocError> {
    match Request::read(message) {
        Ok(request) => Ok(Some(request_text(alloc, &request)?)),
        Err(_) => response_or_none(alloc, message),
    }
}

fn response_or_none(alloc: Global, message: &[u8]) -> Result<Option<String>, AllocError> {
    match Response::read(message) {
        Ok(response) => Ok(Some(response_text(alloc, &response)?)),
        Err(_) => Ok(None),
    }
}

fn request_text(alloc: Global, request: &Request) -> Result<String, AllocError> {
    let instance = request.header.instance.value;
    let datagram = u8::from(request.header.datagram);
    let command = command_text(alloc, &request.command)?;
    format!(in alloc; "control request instance {instance} datagram {datagram} {command}\n")
}

fn command_text(alloc: Global, command: &ControlCommand) -> Result<String, AllocError> {
    match command {
        ControlCommand::SetEndpointId { operation, eid, .. } => {
            let operation = *operation as u8;
            let eid = eid.value;
            format!(in alloc; "set-endpoint-id operation {operation} eid {eid}")
        }
        ControlCommand::GetEndpointId => String::from_str(alloc, "get-endpoint-id"),
        ControlCommand::AllocateEndpointIds {
            operation,
            size,
            first,
            ..
        } => {
            let operation = *operation as u8;
            let first = first.value;
            format!(in alloc;
                "allocate-endpoint-ids operation {operation} size {size} first {first}"
            )
        }
        ControlCommand::GetRoutingTableEntries { handle } => {
            format!(in alloc; "get-routing-table-entries handle {handle}")
        }
    }
}

fn response_text(alloc: Global, response: &Response) -> Result<String, AllocError> {
    let instance = response.header.instance.value;
    let answer = answer_text(alloc, &response.answer)?;
    format!(in alloc; "control response instance {instance} {answer}\n")
}

fn answer_text(alloc: Global, answer: &ControlAnswer) -> Result<String, AllocError> {
    match answer {
        ControlAnswer::SetEndpointId { status, eid, size } => {
            let acceptance = status.acceptance as u8;
            let allocation = status.allocation as u8;
            let eid = eid.value;
            format!(in alloc;
                "set-endpoint-id acceptance {acceptance} allocation {allocation} eid {eid} size {size}"
            )
        }
        ControlAnswer::GetEndpointId {
            eid,
            status,
            medium,
        } => {
            let eid = eid.value;
            let endpoint = status.endpoint as u8;
            let eid_type = status.eid as u8;
            format!(in alloc;
                "get-endpoint-id eid {eid} endpoint {endpoint} eid-type {eid_type} medium {medium}"
            )
        }
        ControlAnswer::AllocateEndpointIds {
            status,
            size,
            first,
        } => {
            let acceptance = status.acceptance as u8;
            let first = first.value;
            format!(in alloc;
                "allocate-endpoint-ids acceptance {acceptance} size {size} first {first}"
            )
        }
        ControlAnswer::GetRoutingTableEntries { next, entries } => {
            let count = entries.items.len();
            format!(in alloc; "get-routing-table-entries next {next} entries {count}")
        }
        ControlAnswer::Failed { command, failure } => {
            let command = *command as u8;
            let code = failure.code;
            format!(in alloc; "command {command} failed {code}")
        }
    }
}
