//! What is wrong with a text.
ghost use Rattle.std.specs.Prelude.{◌≡◌, IfOk};
ghost use Rattle.net_plan.specs.Refusals.{IsNoValue};
ghost use Rattle.net_pointers.specs.TextTroubles.{IsToldOfNoValue, cause_of};

use crate::order::Trouble;
use crate::syntax::{JsonFault, json_fault};
use net_plan::{PlanError, TEXT_LIMIT};
use std::alloc::{AllocError, Global};

/// What is wrong with a text.
#[derive(Drop)]
pub enum TextTrouble {
    /// It has so many bytes, and may have 16,777,216.
    TooLong(usize),
    /// It is no JSON.
    NotJson(JsonFault),
    /// It is JSON, and this is wrong with its value.
    Wrong(Trouble),
}

impl TextTrouble {
    /// Why the reader refuses the text.
    pub fn cause(&self) -> PlanError
        ensures { result ≡ cause_of self.now }
    {
        match self {
            TextTrouble::TooLong(_) => PlanError::OverLimit,
            TextTrouble::NotJson(_) => PlanError::NotJson,
            TextTrouble::Wrong(trouble) => PlanError::from(trouble.fault()),
        }
    }
}

/// What is wrong with a text that is no value of JSON. The error of its reader says why.
pub fn no_value(alloc: Global, text: &[u8], error: PlanError) -> Result<TextTrouble, AllocError>
    requires { IsNoValue text.now error }
    ensures { IfOk result (λ trouble. IsToldOfNoValue text.now trouble) }
{
    if TEXT_LIMIT < text.len() {
        return Ok(TextTrouble::TooLong(text.len()));
    }
    match error {
        PlanError::NotJson => Ok(TextTrouble::NotJson(json_fault(alloc, text)?)),
        // no memory: the text is short enough, so the reader's room was refused.
        _ => Err(AllocError),
    }
}
