//! Why there is no log of a run.

use can_frame::OutOfMemory;
use sja_journal::Endless;
use std::alloc::AllocError;
use thiserror::Error;

/// Why there is no log of a run (this project's own rule).
#[derive(Clone, Copy, Debug, PartialEq, Eq, Error)]
pub enum NoLog {
    /// A list of what happened was made for more than it keeps, as in a run without an end, so that what is oldest may
    /// be forgotten; or more bits were run than 32 bits count.
    #[error("not all of the run is kept")]
    Endless,
    /// Memory was refused.
    #[error("out of memory")]
    Memory,
}

impl From<AllocError> for NoLog {
    ghost use Rattle.std.specs.Prelude.{◌≡◌};
    ghost use Rattle.sja_log.specs.declared.no_log.NoLog.TheVariants.{Memory};

    ghost from_gives = { λ _ e. e ≡ Memory };

    fn from(_: AllocError) -> NoLog {
        NoLog::Memory
    }
}

impl From<OutOfMemory> for NoLog {
    ghost use Rattle.std.specs.Prelude.{◌≡◌};
    ghost use Rattle.sja_log.specs.declared.no_log.NoLog.TheVariants.{Memory};

    ghost from_gives = { λ _ e. e ≡ Memory };

    fn from(_: OutOfMemory) -> NoLog {
        NoLog::Memory
    }
}

impl From<Endless> for NoLog {
    ghost use Rattle.std.specs.Prelude.{◌≡◌};
    ghost use Rattle.sja_log.specs.declared.no_log.NoLog.TheVariants.{Endless as NoEnd};

    ghost from_gives = { λ _ e. e ≡ NoEnd };

    fn from(_: Endless) -> NoLog {
        NoLog::Endless
    }
}
