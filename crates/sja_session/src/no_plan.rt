//! Why a session has no plan.

use can_frame::OutOfMemory;
use sja_log::NoLog;
use thiserror::Error;

/// Why a session gives no plan, and no log (this project's own rule).
#[derive(Clone, Copy, Debug, PartialEq, Eq, Error)]
pub enum NoPlan {
    /// The session is without an end: what is oldest is forgotten.
    #[error("a session without an end has no plan")]
    Endless,
    /// Memory was refused.
    #[error("out of memory")]
    Memory,
}

impl From<OutOfMemory> for NoPlan {
    ghost use Rattle.std.specs.Prelude.{◌≡◌};
    ghost use Rattle.sja_session.specs.declared.no_plan.NoPlan.TheVariants.{Memory};

    ghost from_gives = { λ _ e. e ≡ Memory };

    fn from(_: OutOfMemory) -> NoPlan {
        NoPlan::Memory
    }
}

impl From<NoLog> for NoPlan {
    ghost use Rattle.std.specs.Prelude.{◌≡◌};
    ghost use Rattle.sja_session.specs.Ending.{no_plan_for};

    ghost from_gives = { λ n e. e ≡ no_plan_for n };

    fn from(no_log: NoLog) -> NoPlan {
        match no_log {
            NoLog::Endless => NoPlan::Endless,
            NoLog::Memory => NoPlan::Memory,
        }
    }
}
