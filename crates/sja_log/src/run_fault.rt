//! Why a run has no log.

use can_frame::OutOfMemory;
use sja_journal::BusFault;
use std::alloc::{AllocError, AllocFailed};
use thiserror::Error;

/// Why a plan's run has no log (this project's own rule). One in one thread has none only where memory was refused.
#[derive(Clone, Copy, Debug, PartialEq, Eq, Error)]
pub enum RunFault {
    /// Memory was refused.
    #[error("out of memory")]
    Memory,
    /// There isn't one gate for each node.
    #[error("there isn't one gate for each node")]
    GateCount,
    /// The bus doesn't go on, for another cause than spent bits.
    #[error("the bus doesn't go on")]
    Bus(BusFault),
    /// A thread couldn't be started.
    #[error("a thread couldn't be started")]
    Thread,
    /// A link was left with items that the bus didn't take, or gave no account at its end.
    #[error("a link isn't settled")]
    Unsettled,
}

impl From<AllocError> for RunFault {
    ghost use Rattle.std.specs.Prelude.{◌≡◌};
    ghost use Rattle.sja_log.specs.declared.run_fault.RunFault.TheVariants.{Memory};

    ghost from_gives = { λ _ e. e ≡ Memory };

    fn from(_: AllocError) -> RunFault {
        RunFault::Memory
    }
}

impl<T: Drop> From<AllocFailed<T>> for RunFault {
    ghost use Rattle.std.specs.Prelude.{◌≡◌};
    ghost use Rattle.sja_log.specs.declared.run_fault.RunFault.TheVariants.{Memory};

    ghost from_gives = { λ _ e. e ≡ Memory };

    fn from(_: AllocFailed<T>) -> RunFault {
        RunFault::Memory
    }
}

impl From<OutOfMemory> for RunFault {
    ghost use Rattle.std.specs.Prelude.{◌≡◌};
    ghost use Rattle.sja_log.specs.declared.run_fault.RunFault.TheVariants.{Memory};

    ghost from_gives = { λ _ e. e ≡ Memory };

    fn from(_: OutOfMemory) -> RunFault {
        RunFault::Memory
    }
}
