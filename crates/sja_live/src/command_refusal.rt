//! Why no command comes of a line.

use super::line_fault::LineFault;
use std::alloc::AllocError;

/// Why no command comes of a line.
#[derive(Clone, Copy)]
pub(crate) enum CommandRefusal {
    /// It asks for nothing.
    Mistaken(LineFault),
    /// Memory was refused.
    Memory,
}

impl From<AllocError> for CommandRefusal {
    ghost use Rattle.std.specs.Prelude.{◌≡◌};
    ghost use Rattle.sja_live.specs.declared.command_refusal.CommandRefusal.TheVariants.{Memory};

    ghost from_gives = { λ _ e. e ≡ Memory };

    fn from(_: AllocError) -> CommandRefusal {
        CommandRefusal::Memory
    }
}
