//! [`SourceFault`]: why no bytes are had under a name.

use std::alloc::AllocError;

/// Why no bytes are had under a name (this project's own rule).
#[derive(Clone, Copy, Debug, PartialEq, Eq)]
pub enum SourceFault {
    /// Nothing stands there that can be read.
    Unreadable,
    /// Memory was refused.
    OutOfMemory,
}

impl From<AllocError> for SourceFault {
    ghost use Rattle.std.specs.Prelude.{◌≡◌};
    ghost use Rattle.sja_run.specs.declared.source_fault.SourceFault.TheVariants.{OutOfMemory};

    ghost from_gives = { λ _ fault. fault ≡ OutOfMemory };

    fn from(_error: AllocError) -> SourceFault {
        SourceFault::OutOfMemory
    }
}
