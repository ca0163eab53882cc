//! [`ReadFault`]: why bytes are no plan whose strikes all have bits.

use super::place_fault::PlaceFault;
use sja_plan_reading::PlanFault;
use thiserror::Error;

/// Why bytes are no plan whose strikes all have bits (this project's own rule).
#[derive(Clone, Copy, Debug, PartialEq, Eq, Error)]
pub enum ReadFault {
    /// The bytes are no plan.
    #[error("{0}")]
    Plan(PlanFault),
    /// They are one, and a strike by place has no bit.
    #[error("{0}")]
    Place(PlaceFault),
}

impl From<PlanFault> for ReadFault {
    ghost use Rattle.std.specs.Prelude.{◌≡◌};
    ghost use Rattle.sja_placed_strikes.specs.declared.read_fault.ReadFault.TheVariants.{Plan};

    ghost from_gives = { λ f e. e ≡ Plan f };

    fn from(fault: PlanFault) -> ReadFault {
        ReadFault::Plan(fault)
    }
}

impl From<PlaceFault> for ReadFault {
    ghost use Rattle.std.specs.Prelude.{◌≡◌};
    ghost use Rattle.sja_placed_strikes.specs.declared.read_fault.ReadFault.TheVariants.{Place};

    ghost from_gives = { λ f e. e ≡ Place f };

    fn from(fault: PlaceFault) -> ReadFault {
        ReadFault::Place(fault)
    }
}
