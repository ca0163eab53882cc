//! [`Unanswered`]: why what is asked of a plan has no answer.

use can_frame::OutOfMemory;
use text_codec::CommandRefusal;

/// Why what is asked of a plan has no answer (this project's own rule).
#[derive(Drop)]
pub enum Unanswered {
    /// It is refused, which is told in one line.
    Refused(CommandRefusal),
    /// The document says its version 3 before all other keys, and has a mistake: what `check` says of it.
    Mistaken(Vec<u8>),
}

impl From<CommandRefusal> for Unanswered {
    ghost use Rattle.std.specs.Prelude.{◌≡◌};
    ghost use Rattle.sja_program.specs.declared.unanswered.Unanswered.TheVariants.{Refused};

    ghost from_gives = { λ r why. why ≡ Refused r };

    fn from(refusal: CommandRefusal) -> Unanswered {
        Unanswered::Refused(refusal)
    }
}

impl From<OutOfMemory> for Unanswered {
    ghost use Rattle.std.specs.Prelude.{◌≡◌};
    ghost use Rattle.text_codec.specs.declared.command_refusal.CommandRefusal.TheVariants as refusal;
    ghost use Rattle.sja_program.specs.declared.unanswered.Unanswered.TheVariants.{Refused};

    ghost from_gives = { λ _ why. why ≡ Refused refusal.OutOfMemory };

    fn from(_: OutOfMemory) -> Unanswered {
        Unanswered::Refused(CommandRefusal::OutOfMemory)
    }
}
