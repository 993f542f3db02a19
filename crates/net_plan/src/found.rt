//! A fault, and the pointer to the value that has it.
use crate::error::ValueFault;
use crate::shape::Shape;
use std::alloc::AllocError;

/// A step of a JSON pointer (RFC 6901).
#[derive(Clone, Copy, Debug, PartialEq, Eq)]
pub enum PointerStep {
    /// To the value at a key of an object.
    Key(&'static str),
    /// To the item of a list at an index, from 0.
    Index(usize),
}

/// A fault, the pointer to the value that has it, and what may stand there.
#[derive(Drop)]
pub struct Found {
    pub pointer: Vec<PointerStep>,
    pub shape: &'static Shape,
    pub fault: ValueFault,
}

impl Found {
    ghost use Rattle.std.specs.Prelude.{◌≡◌, IfOk, Some};
    ghost use Rattle.net_plan.specs.Finding.{under, located, step_value};

    /// The same fault, seen one step further out.
    pub fn under(self, step: PointerStep) -> Result<Found, AllocError>
        ensures { IfOk result (λ found. Some (located found) ≡ under (step_value step) (Some (located self))) }
    {
        let mut found = self;
        match found.pointer.insert(0, step) {
            Ok(()) => Ok(found),
            // no memory: the pointer could not grow.
            Err(_) => Err(AllocError),
        }
    }
}
