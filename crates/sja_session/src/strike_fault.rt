//! Why a bit isn't struck.

use can_frame::OutOfMemory;
use thiserror::Error;

/// Why a session doesn't strike a bit (this project's own rule). The first one that holds is told, and nothing changed.
#[derive(Clone, Copy, Debug, PartialEq, Eq, Error)]
pub enum StrikeFault {
    /// There is no such node.
    #[error("no such node")]
    NoNode,
    /// The session has no such bit: its bits end before it.
    #[error("no such bit")]
    NoBit,
    /// The bit has run.
    #[error("the bit has run")]
    Past,
    /// The strikes strike as many bits already as those of a plan of this version may: 1,000, or 100,000 in version 3.
    #[error("all strikes are used")]
    StrikesUsed,
    /// Memory was refused.
    #[error("out of memory")]
    Memory,
}

impl From<OutOfMemory> for StrikeFault {
    ghost use Rattle.std.specs.Prelude.{◌≡◌};
    ghost use Rattle.sja_session.specs.declared.strike_fault.StrikeFault.TheVariants.{Memory};

    ghost from_gives = { λ _ e. e ≡ Memory };

    fn from(_: OutOfMemory) -> StrikeFault {
        StrikeFault::Memory
    }
}
