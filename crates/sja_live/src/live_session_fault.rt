//! Why a talk breaks off.

use can_frame::OutOfMemory;
use std::alloc::{AllocError, AllocFailed};
use thiserror::Error;

/// Why a talk breaks off (this project's own rule). What was answered before stays written.
#[derive(Clone, Copy, Debug, PartialEq, Eq, Error)]
pub enum LiveSessionFault {
    /// Memory was refused.
    #[error("out of memory")]
    Memory,
    /// A read failed.
    #[error("read fault")]
    Read,
    /// A write failed.
    #[error("write fault")]
    Write,
}

impl From<AllocError> for LiveSessionFault {
    ghost use Rattle.std.specs.Prelude.{◌≡◌};
    ghost use Rattle.sja_live.specs.declared.live_session_fault.LiveSessionFault.TheVariants.{Memory};

    ghost from_gives = { λ _ e. e ≡ Memory };

    fn from(_: AllocError) -> LiveSessionFault {
        LiveSessionFault::Memory
    }
}

impl<T: Drop> From<AllocFailed<T>> for LiveSessionFault {
    ghost use Rattle.std.specs.Prelude.{◌≡◌};
    ghost use Rattle.sja_live.specs.declared.live_session_fault.LiveSessionFault.TheVariants.{Memory};

    ghost from_gives = { λ _ e. e ≡ Memory };

    fn from(_: AllocFailed<T>) -> LiveSessionFault {
        LiveSessionFault::Memory
    }
}

impl From<OutOfMemory> for LiveSessionFault {
    ghost use Rattle.std.specs.Prelude.{◌≡◌};
    ghost use Rattle.sja_live.specs.declared.live_session_fault.LiveSessionFault.TheVariants.{Memory};

    ghost from_gives = { λ _ e. e ≡ Memory };

    fn from(_: OutOfMemory) -> LiveSessionFault {
        LiveSessionFault::Memory
    }
}
