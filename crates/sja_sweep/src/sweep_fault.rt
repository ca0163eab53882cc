//! [`SweepFault`]: why there is no sweep.

use sja_log::RunFault;
use std::alloc::{AllocError, AllocFailed};
use std::fmt;
use thiserror::Error;

/// Why there is no sweep of a plan (this project's own rule).
#[derive(Clone, Copy, Debug, PartialEq, Eq, Error)]
pub enum SweepFault {
    /// The plan doesn't have the node that is named.
    NoNode,
    /// There are more runs than 20,000, or they may come to more than 2,000,000,000 bits, and it isn't said that so
    /// many are meant: how many runs, and how many bits they may come to.
    TooMany(u128, u128),
    /// With those of a run more the strikes would strike more bits than those of a plan of this version may.
    StrikeCount,
    /// A run failed: memory was refused.
    Run(RunFault),
    /// Memory was refused.
    Memory,
}

impl fmt::Display for SweepFault {
    fn fmt<W: fmt::Write>(&self, f: &mut fmt::Formatter<W>) -> fmt::Result {
        match *self {
            SweepFault::NoNode => f.write_str("the plan doesn't have this node"),
            SweepFault::TooMany(runs, bits) => {
                write!(f, "the sweep has {runs} runs of {bits} bits in all")
            }
            SweepFault::StrikeCount => f.write_str("the plan has no room for the strikes of a run"),
            SweepFault::Run(fault) => write!(f, "{fault}"),
            SweepFault::Memory => f.write_str("out of memory"),
        }
    }
}

impl From<RunFault> for SweepFault {
    ghost use Rattle.std.specs.Prelude.{◌≡◌};
    ghost use Rattle.sja_sweep.specs.declared.sweep_fault.SweepFault.TheVariants.{Run};

    ghost from_gives = { λ f e. e ≡ Run f };

    fn from(fault: RunFault) -> SweepFault {
        SweepFault::Run(fault)
    }
}

impl From<AllocError> for SweepFault {
    ghost use Rattle.std.specs.Prelude.{◌≡◌};
    ghost use Rattle.sja_sweep.specs.declared.sweep_fault.SweepFault.TheVariants.{Memory};

    ghost from_gives = { λ _ e. e ≡ Memory };

    fn from(_: AllocError) -> SweepFault {
        SweepFault::Memory
    }
}

impl<T: Drop> From<AllocFailed<T>> for SweepFault {
    ghost use Rattle.std.specs.Prelude.{◌≡◌};
    ghost use Rattle.sja_sweep.specs.declared.sweep_fault.SweepFault.TheVariants.{Memory};

    ghost from_gives = { λ _ e. e ≡ Memory };

    fn from(_: AllocFailed<T>) -> SweepFault {
        SweepFault::Memory
    }
}
