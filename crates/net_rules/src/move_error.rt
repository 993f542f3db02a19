//! Why two plans and a certificate are not accepted as a move.
ghost use Rattle.std.specs.Prelude.{◌≡◌, option_map};
ghost use Rattle.net_rules.specs.MoveFaults.{code_of_error};

use crate::move_fault::MoveFault;
use std::alloc::AllocError;

/// Why two plans and a certificate are not accepted as a move. Of several faults the first is answered: M01; then the
/// rules of the old plan, then those of the new one's rows; then M02 along the old rows, then along the new ones; then
/// M03.
#[derive(Clone, Copy, Debug, PartialEq, Eq)]
pub enum MoveError {
    /// M01: the plans differ in more than rows, at the first node that is not the same; at none where their unit, buses
    /// or the numbers of their nodes differ.
    Differ(Option<usize>),
    /// The old plan breaks a rule, or M02 along its rows.
    Old(MoveFault),
    /// The new plan's rows break a rule, or M02.
    New(MoveFault),
    /// Both plans together break M03.
    Both(MoveFault),
    /// Memory ran out.
    OutOfMemory,
}

impl MoveError {
    /// The code of the broken rule, as users see it; none where memory ran out.
    pub fn code(self) -> Option<&'static str>
        ensures { option_map (λ code. code.now) result ≡ code_of_error self }
    {
        match self {
            MoveError::Differ(_) => Some("M01"),
            MoveError::Old(fault) => Some(fault.rule.code()),
            MoveError::New(fault) => Some(fault.rule.code()),
            MoveError::Both(fault) => Some(fault.rule.code()),
            MoveError::OutOfMemory => None,
        }
    }
}

impl From<AllocError> for MoveError {
    ghost use Rattle.std.specs.Prelude.{◌≡◌};
    ghost use Rattle.net_rules.specs.declared.move_error.MoveError.TheVariants.{OutOfMemory};

    ghost from_gives = { λ _ error. error ≡ OutOfMemory };

    fn from(_error: AllocError) -> Self {
        MoveError::OutOfMemory
    }
}
