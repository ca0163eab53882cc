//! Why a plan gets no strike more.

use std::alloc::{AllocError, AllocFailed};
use thiserror::Error;

/// Why a plan gets no strike more (this project's own rule).
#[derive(Clone, Copy, Debug, PartialEq, Eq, Error)]
pub enum StrikeRefusal {
    /// Its strikes strike 1,000 bits already, or 100,000 in version 3.
    #[error("the strikes strike 1000 bits already, or 100000 in version 3")]
    StrikeCount,
    /// Memory was refused.
    #[error("out of memory")]
    Memory,
}

impl From<AllocError> for StrikeRefusal {
    ghost use Rattle.std.specs.Prelude.{◌≡◌};
    ghost use Rattle.sja_plan.specs.declared.strike_refusal.StrikeRefusal.TheVariants.{Memory};

    ghost from_gives = { λ _ e. e ≡ Memory };

    fn from(_error: AllocError) -> StrikeRefusal {
        StrikeRefusal::Memory
    }
}

impl<T: Drop> From<AllocFailed<T>> for StrikeRefusal {
    ghost use Rattle.std.specs.Prelude.{◌≡◌};
    ghost use Rattle.sja_plan.specs.declared.strike_refusal.StrikeRefusal.TheVariants.{Memory};

    ghost from_gives = { λ _ e. e ≡ Memory };

    fn from(_error: AllocFailed<T>) -> StrikeRefusal {
        StrikeRefusal::Memory
    }
}
