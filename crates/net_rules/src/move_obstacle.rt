//! Why a move has no certificate.

use crate::certify_error::CertifyError;
use crate::mixed_loop::MixedLoop;
use crate::move_error::MoveError;
use std::alloc::AllocError;

/// Why a move has no certificate: the first cause, in the order in which `check_move` asks.
#[derive(Debug, Drop)]
pub enum MoveObstacle {
    /// The old plan has no certificate by itself.
    Old(CertifyError),
    /// The move breaks a rule, whatever the certificate: M01, a rule of the new plan's rows, or M02.
    Fault(MoveError),
    /// What is for an endpoint ID can go round, along rows of either plan.
    Loop(MixedLoop),
    /// Memory ran out.
    OutOfMemory,
}

impl From<AllocError> for MoveObstacle {
    ghost use Rattle.std.specs.Prelude.{◌≡◌};
    ghost use Rattle.net_rules.specs.declared.move_obstacle.MoveObstacle.TheVariants.{OutOfMemory};

    ghost from_gives = { λ _ obstacle. obstacle ≡ OutOfMemory };

    fn from(_error: AllocError) -> Self {
        MoveObstacle::OutOfMemory
    }
}

impl From<MoveError> for MoveObstacle {
    ghost use Rattle.std.specs.Prelude.{◌≡◌};
    ghost use Rattle.net_rules.specs.MoveObstacles.{obstacle_of_error};

    ghost from_gives = { λ error obstacle. obstacle ≡ obstacle_of_error error };

    #[tactic(auto, using(crate::proofs::MoveCertificates::fault_is))]
    fn from(error: MoveError) -> Self {
        match error {
            MoveError::OutOfMemory => MoveObstacle::OutOfMemory,
            error => MoveObstacle::Fault(error),
        }
    }
}
