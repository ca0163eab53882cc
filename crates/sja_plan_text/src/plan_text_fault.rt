//! Why a plan isn't written.

use can_frame::OutOfMemory;
use thiserror::Error;

/// Why a plan isn't written (this project's own rule).
#[derive(Clone, Copy, Debug, PartialEq, Eq, Error)]
pub enum PlanTextFault {
    /// Memory was refused.
    #[error("out of memory")]
    NoMemory,
    /// The document has more than 65,536 bytes, or than 16 MiB in version 3, so that it wouldn't be read.
    #[error("the plan's document is longer than 65536 bytes, or than 16777216 in version 3")]
    TooLong,
}

impl From<OutOfMemory> for PlanTextFault {
    ghost use Rattle.std.specs.Prelude.{◌≡◌};
    ghost use Rattle.sja_plan_text.specs.declared.plan_text_fault.PlanTextFault.TheVariants.{NoMemory};

    ghost from_gives = { λ _ e. e ≡ NoMemory };

    fn from(_error: OutOfMemory) -> PlanTextFault {
        PlanTextFault::NoMemory
    }
}
