//! Why no session is opened by a line.

use super::opening_fault::OpeningFault;
use std::alloc::AllocError;

/// Why no session is opened by a line.
#[derive(Clone, Copy)]
pub(crate) enum OpeningRefusal {
    /// It is no opening.
    Fault(OpeningFault),
    /// Memory was refused.
    Memory,
}

impl From<AllocError> for OpeningRefusal {
    ghost use Rattle.std.specs.Prelude.{◌≡◌};
    ghost use Rattle.sja_live.specs.declared.opening_refusal.OpeningRefusal.TheVariants.{Memory};

    ghost from_gives = { λ _ e. e ≡ Memory };

    fn from(_: AllocError) -> OpeningRefusal {
        OpeningRefusal::Memory
    }
}
