//! What is asked of a plan with its certificate.
use crate::drawn_rows::DrawnRows;
use crate::form::Form;
use crate::part_size::PartSize;

/// A question about a plan with its certificate: the command of the name asks it.
#[derive(Clone, Copy)]
pub enum Question<'a> {
    /// Does the certificate fit the plan?
    Check,
    /// What are all faults of both? The name is that of the plan's file, which stands before each place.
    Faults { name: &'a str },
    /// Which requests give the nodes their endpoint IDs and pools?
    Assign,
    /// Who reaches whom, and by how many hops?
    Reach,
    /// The same as a table.
    Matrix,
    /// What does the network look like, with the certificate's levels and ranks?
    Draw { rows: DrawnRows },
    /// Which records does a walk over a node's terminus collect, by parts of so many bytes?
    Walk { node: &'a str, part: PartSize },
    /// Which way does a packet take from a node to another, or to an endpoint ID?
    Trace { from: &'a str, to: &'a str },
}

/// What is asked of a plan with its certificate, where the answer is to be JSON: the command of the name asks it.
#[derive(Clone, Copy)]
pub enum CertifiedJson<'a> {
    /// What does `check` answer, and why?
    Explain,
    /// What are all faults of both?
    Faults(Form),
    /// Who reaches whom, and by how many hops?
    Reach,
    /// Which way does a packet take from a node to another, or to an endpoint ID?
    Trace { from: &'a str, to: &'a str },
}
