//! Why there is no session.

use can_frame::OutOfMemory;
use std::alloc::{AllocError, AllocFailed};
use thiserror::Error;

/// Why there is no session (this project's own rule). The first one that holds is told.
#[derive(Clone, Copy, Debug, PartialEq, Eq, Error)]
pub enum SessionFault {
    /// The version isn't one from 1 to 3.
    #[error("no such version")]
    Version,
    /// The number of bits isn't one from 1 to 200,000, or to 2,000,000 in version 3.
    #[error("the number of bits isn't one from 1 to 200,000, or to 2,000,000 in version 3")]
    Bits,
    /// The number of nodes isn't one from 1 to 8.
    #[error("the number of nodes isn't one from 1 to 8")]
    NodeCount,
    /// Room is wanted for more steps of a node than a plan of this version has at most.
    #[error("room for more steps of a node than a plan of this version may have")]
    StepRoom,
    /// Room is wanted for more turns than a plan of this version has at most.
    #[error("room for more turns than a plan of this version may have")]
    TurnRoom,
    /// Memory was refused.
    #[error("out of memory")]
    Memory,
}

impl From<AllocError> for SessionFault {
    ghost use Rattle.std.specs.Prelude.{◌≡◌};
    ghost use Rattle.sja_session.specs.declared.session_fault.SessionFault.TheVariants.{Memory};

    ghost from_gives = { λ _ e. e ≡ Memory };

    fn from(_: AllocError) -> SessionFault {
        SessionFault::Memory
    }
}

impl<T: Drop> From<AllocFailed<T>> for SessionFault {
    ghost use Rattle.std.specs.Prelude.{◌≡◌};
    ghost use Rattle.sja_session.specs.declared.session_fault.SessionFault.TheVariants.{Memory};

    ghost from_gives = { λ _ e. e ≡ Memory };

    fn from(_: AllocFailed<T>) -> SessionFault {
        SessionFault::Memory
    }
}

impl From<OutOfMemory> for SessionFault {
    ghost use Rattle.std.specs.Prelude.{◌≡◌};
    ghost use Rattle.sja_session.specs.declared.session_fault.SessionFault.TheVariants.{Memory};

    ghost from_gives = { λ _ e. e ≡ Memory };

    fn from(_: OutOfMemory) -> SessionFault {
        SessionFault::Memory
    }
}
