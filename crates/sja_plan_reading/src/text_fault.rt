//! Why a text of a plan isn't read.

use std::alloc::AllocError;

/// Why a word or a text of a plan isn't read (this project's own rule).
#[derive(Clone, Copy)]
pub enum TextFault {
    /// It says nothing.
    Bad,
    /// Memory was refused.
    NoMemory,
}

impl From<AllocError> for TextFault {
    ghost use Rattle.std.specs.Prelude.{◌≡◌};
    ghost use Rattle.sja_plan_reading.specs.declared.text_fault.TextFault.TheVariants.{NoMemory};

    ghost from_gives = { λ _ e. e ≡ NoMemory };

    fn from(_error: AllocError) -> TextFault {
        TextFault::NoMemory
    }
}
