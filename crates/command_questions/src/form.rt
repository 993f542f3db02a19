//! The forms in which faults are told.

/// The form in which faults are told.
#[derive(Clone, Copy)]
pub enum Form {
    /// The JSON value that the commands share.
    Json,
    /// A log of SARIF 2.1.0 (OASIS), as CI jobs take it.
    Sarif,
}
