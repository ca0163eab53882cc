//! [`PlaceFault`]: why a strike by place has no bit.

use sja_log::RunFault;
use std::alloc::{AllocError, AllocFailed};
use std::fmt;
use thiserror::Error;

/// Why a plan's strikes by place have no bits (this project's own rule).
#[derive(Clone, Copy, Debug, PartialEq, Eq, Error)]
pub enum PlaceFault {
    /// The run has no place of this strike, and none of those that are left: the strike's number among those of the
    /// document, counted from 1, how many frames the run has, and the SOF of the last of them.
    NoPlace(usize, usize, Option<u32>),
    /// The strikes strike in more frames than may be found, or more bits than those of a plan of this version may.
    StrikeCount,
    /// A run failed: memory was refused.
    Run(RunFault),
    /// Memory was refused.
    Memory,
}

impl fmt::Display for PlaceFault {
    fn fmt<W: fmt::Write>(&self, f: &mut fmt::Formatter<W>) -> fmt::Result {
        match *self {
            PlaceFault::NoPlace(item, frames, _) => {
                write!(f, "strike {item} is at no bit; frames: {frames}")
            }
            PlaceFault::StrikeCount => f.write_str("the strikes strike in too many frames"),
            PlaceFault::Run(fault) => write!(f, "{fault}"),
            PlaceFault::Memory => f.write_str("out of memory"),
        }
    }
}

impl From<RunFault> for PlaceFault {
    ghost use Rattle.std.specs.Prelude.{◌≡◌};
    ghost use Rattle.sja_placed_strikes.specs.declared.place_fault.PlaceFault.TheVariants.{Run};

    ghost from_gives = { λ f e. e ≡ Run f };

    fn from(fault: RunFault) -> PlaceFault {
        PlaceFault::Run(fault)
    }
}

impl From<AllocError> for PlaceFault {
    ghost use Rattle.std.specs.Prelude.{◌≡◌};
    ghost use Rattle.sja_placed_strikes.specs.declared.place_fault.PlaceFault.TheVariants.{Memory};

    ghost from_gives = { λ _ e. e ≡ Memory };

    fn from(_: AllocError) -> PlaceFault {
        PlaceFault::Memory
    }
}

impl<T: Drop> From<AllocFailed<T>> for PlaceFault {
    ghost use Rattle.std.specs.Prelude.{◌≡◌};
    ghost use Rattle.sja_placed_strikes.specs.declared.place_fault.PlaceFault.TheVariants.{Memory};

    ghost from_gives = { λ _ e. e ≡ Memory };

    fn from(_: AllocFailed<T>) -> PlaceFault {
        PlaceFault::Memory
    }
}
