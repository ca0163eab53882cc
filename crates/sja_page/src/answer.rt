//! [`PageAnswer`]: what the program answers to a page.

ghost use Rattle.std.specs.Prelude.{◌≡◌};
ghost use Rattle.sja_page.specs.Outcomes.{status_of};

use super::outcome::Outcome;

/// What the program answers to a page: how it went, and how long its two texts are.
#[repr(C)]
#[derive(Drop)]
pub struct PageAnswer {
    /// The program's exit status, 0 to 2; or 3 where something is left to another call, 4 where the texts don't fit,
    /// and 5 where memory was refused.
    pub status: u32,
    /// How many bytes are on the output.
    pub printed: u64,
    /// How many bytes are on the error output.
    pub told: u64,
}

impl PageAnswer {
    /// An answer without texts.
    pub(crate) fn plain(outcome: Outcome) -> PageAnswer
        ensures { result ≡ record { status = status_of outcome; printed = 0; told = 0 } }
    {
        PageAnswer {
            status: outcome.status(),
            printed: 0,
            told: 0,
        }
    }
}
