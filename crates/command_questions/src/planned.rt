//! What is asked of a plan alone.
use crate::drawn_rows::DrawnRows;
use crate::form::Form;

/// A question about a plan: the command of the name asks it.
#[derive(Clone, Copy)]
pub enum PlanQuestion<'a> {
    /// What is its certificate, or why has it none?
    Certify,
    /// What does the network look like? A loop that rules certificates out, of rows or of owners, is red.
    Draw { rows: DrawnRows },
    /// What are all its faults, or what else rules certificates out? The name is that of the plan's file, which stands
    /// before each place.
    Faults { name: &'a str },
    /// What in it is lawful and still looks wrong?
    Lint,
    /// What is the plan with rows by which all its nodes reach each other?
    Rows,
}

/// What is asked of a plan alone, where the answer is to be JSON: the command of the name asks it.
#[derive(Clone, Copy)]
pub enum PlanJson {
    /// What does `certify` answer, and why?
    Explain,
    /// What are all its faults, or what else rules certificates out?
    Faults(Form),
    /// What in it is lawful and still looks wrong?
    Lint,
}
