//! Why a list of texts isn't read.

use std::alloc::AllocError;

/// Why a list of texts isn't read.
#[derive(Clone, Copy)]
pub(crate) enum ListFault {
    /// The text of this number, counted from 1, is the first that says nothing.
    Bad(usize),
    /// Memory was refused.
    NoMemory,
}

impl From<AllocError> for ListFault {
    ghost use Rattle.std.specs.Prelude.{◌≡◌};
    ghost use Rattle.sja_plan_reading.specs.declared.list_fault.ListFault.TheVariants.{NoMemory};

    ghost from_gives = { λ _ e. e ≡ NoMemory };

    fn from(_error: AllocError) -> ListFault {
        ListFault::NoMemory
    }
}
