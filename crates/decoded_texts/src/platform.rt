//! The lines of PLDM messages.

use mctp_transport::Wire;
use pdr_record::Record;
use plan_texts::record_text;
use pldm_message::{GetPdrAnswer, GetPdrRequest, HEADER_LENGTH, MessageKind, PdrPart, PldmHeader};
use std::alloc::{AllocError, Global};

/// The line of the request for a part of a record that the bytes are. None where they are none.
pub fn part_request_text(alloc: Global, message: &[u8]) -> Result<Option<String>, AllocError> {
    match GetPdrRequest::read(message) {
        Ok(request) => Ok(Some(request_text(alloc, &request)?)),
        Err(_) => Ok(None),
    }
}

fn request_text(alloc: Global, request: &GetPdrRequest) -> Result<String, AllocError> {
    let instance = request.head.instance.value;
    let place = place_words(alloc, request)?;
    let count = request.request_count;
    let change = request.record_change_number;
    format!(in alloc;
        "pldm request instance {instance} get-pdr {place} count {count} change {change}\n"
    )
}

fn place_words(alloc: Global, request: &GetPdrRequest) -> Result<String, AllocError> {
    let handle = request.record_handle;
    let transfer = request.data_transfer_handle;
    let operation = request.operation.value;
    format!(in alloc; "record {handle} transfer {transfer} operation {operation}")
}

/// The lines of the answer with a part of a record that the bytes are. None where they are none.
pub fn part_answer_text(alloc: Global, message: &[u8]) -> Result<Option<String>, AllocError> {
    match GetPdrAnswer::read(message) {
        Ok(answer) => Ok(Some(answer_text(alloc, &answer)?)),
        Err(_) => Ok(None),
    }
}

fn answer_text(alloc: Global, answer: &GetPdrAnswer) -> Result<String, AllocError> {
    let instance = answer.head.instance.value;
    match &answer.outcome {
        Ok(part) => part_text(alloc, instance, part),
        Err(code) => {
            let code = code.value;
            format!(in alloc; "pldm response instance {instance} get-pdr failed {code}\n")
        }
    }
}

fn part_text(alloc: Global, instance: u8, given: &PdrPart) -> Result<String, AllocError> {
    let line = part_line(alloc, instance, given)?;
    let shown = record_or_nothing(alloc, given.bytes)?;
    format!(in alloc; "{line}{shown}")
}

fn part_line(alloc: Global, instance: u8, given: &PdrPart) -> Result<String, AllocError> {
    let words = part_words(alloc, given)?;
    let bytes = hex::encode(alloc, given.bytes)?;
    format!(in alloc; "pldm response instance {instance} get-pdr {words} bytes {bytes}\n")
}

fn part_words(alloc: Global, given: &PdrPart) -> Result<String, AllocError> {
    let next = given.next_record_handle;
    let transfer = given.next_data_transfer_handle;
    let flag = given.flag.value;
    format!(in alloc; "next {next} transfer {transfer} flag {flag}")
}

/// The lines of the record that the bytes are, or nothing where they are none.
fn record_or_nothing(alloc: Global, bytes: &[u8]) -> Result<String, AllocError> {
    match Record::read(bytes) {
        Ok(record) => record_text(alloc, &record),
        Err(_) => Ok(String::new(alloc)),
    }
}

/// The line of a message by its header. None where it begins with none.
pub fn header_text(alloc: Global, message: &[u8]) -> Result<Option<String>, AllocError> {
    match PldmHeader::front(message) {
        Ok(header) => Ok(Some(line_of_header(alloc, &header, behind_header(message))?)),
        Err(_) => Ok(None),
    }
}

/// What stands behind a message's header.
fn behind_header(message: &[u8]) -> &[u8] {
    message.get(HEADER_LENGTH..).unwrap_or(&[])
}

fn line_of_header(alloc: Global, header: &PldmHeader, rest: &[u8]) -> Result<String, AllocError> {
    let kind = word_of(header.kind);
    let instance = header.instance.value;
    let pldm_type = header.pldm_type.value;
    let command = header.command;
    let rest = hex::encode(alloc, rest)?;
    format!(in alloc;
        "pldm {kind} instance {instance} type {pldm_type} command {command} data {rest}\n"
    )
}

fn word_of(kind: MessageKind) -> &'static str {
    match kind {
        MessageKind::Request => "request",
        MessageKind::Datagram => "datagram",
        MessageKind::Response => "response",
    }
}
