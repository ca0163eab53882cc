//! The bits of CMR.

ghost use Rattle.std.specs.Prelude.{◌≡◌};
ghost use Rattle.sja_regs.specs.Commands.{command_of, requests};

use super::bits::is_set;
use super::letters::{AT, CDO, RRB, SRR, TR};

/// What is written to the command register CMR (SJA1000 data sheet, 6.4.4). Bits 5 to 7 are ignored (this project's own
/// rule).
#[derive(Clone, Copy, Debug, PartialEq, Eq)]
pub struct Command {
    /// Transmission request.
    pub tr: bool,
    /// Abort transmission; with a request: single shot.
    pub at: bool,
    /// Release receive buffer.
    pub rrb: bool,
    /// Clear data overrun.
    pub cdo: bool,
    /// Self reception request.
    pub srr: bool,
}

impl Command {
    /// The command that a byte says.
    pub fn of(value: u8) -> Command
        ensures { result ≡ command_of value }
    {
        Command {
            tr: is_set(value, TR),
            at: is_set(value, AT),
            rrb: is_set(value, RRB),
            cdo: is_set(value, CDO),
            srr: is_set(value, SRR),
        }
    }

    /// Whether it requests a transmission.
    pub fn requests(self) -> bool
        ensures { result ≡ requests self }
    {
        self.tr || self.srr
    }
}
