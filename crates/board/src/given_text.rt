//! The text of a plan as it is.
use crate::given_plan::board_of_plan;
use crate::making::given_plan;
use plan_values::Plan;
use std::alloc::{AllocError, Global};

/// The text of a plan, laid out like one that is made of a board. Nothing is promised of it here.
pub fn text_of_plan(alloc: Global, plan: &Plan) -> Result<String, AllocError> {
    let board = board_of_plan(alloc, plan)?;
    match given_plan(alloc, &board) {
        Ok(text) => Ok(text),
        // no memory: where the board gives all, nothing else can be lacking.
        Err(_) => Err(AllocError),
    }
}
