//! What a whole message says.

use crate::control::control_text;
use crate::platform::{header_text, part_answer_text, part_request_text};
use std::alloc::{AllocError, Global};

/// The lines of what a message says.
pub fn message_text(alloc: Global, message: &[u8]) -> Result<String, AllocError> {
    match control_text(alloc, message)? {
        Some(text) => Ok(text),
        None => platform_text(alloc, message),
    }
}

fn platform_text(alloc: Global, message: &[u8]) -> Result<String, AllocError> {
    match part_request_text(alloc, message)? {
        Some(text) => Ok(text),
        None => answer_or_plain(alloc, message),
    }
}

fn answer_or_plain(alloc: Global, message: &[u8]) -> Result<String, AllocError> {
    match part_answer_text(alloc, message)? {
        Some(text) => Ok(text),
        None => plain_text(alloc, message),
    }
}

fn plain_text(alloc: Global, message: &[u8]) -> Result<String, AllocError> {
    match header_text(alloc, message)? {
        Some(text) => Ok(text),
        None => other_text(alloc, message),
    }
}

fn other_text(alloc: Global, message: &[u8]) -> Result<String, AllocError> {
    let message = hex::encode(alloc, message)?;
    format!(in alloc; "message {message}\n")
}
