//! [`WordsFault`]: why words give no task.

use std::alloc::AllocError;

/// Why words give no task (this project's own rule).
#[derive(Drop)]
pub enum WordsFault {
    /// Memory was refused.
    OutOfMemory,
    /// The words don't parse, or ask for help or the version. The parser's own text for the user, which ends with a
    /// line feed.
    Unparsed(String),
}

impl From<AllocError> for WordsFault {
    ghost use Rattle.std.specs.Prelude.{◌≡◌};
    ghost use Rattle.sja_command_line.specs.declared.words_fault.WordsFault.TheVariants.{OutOfMemory};

    ghost from_gives = { λ _ fault. fault ≡ OutOfMemory };

    fn from(_error: AllocError) -> WordsFault {
        WordsFault::OutOfMemory
    }
}
