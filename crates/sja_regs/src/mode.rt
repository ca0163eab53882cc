//! The bits of MOD.

ghost use Rattle.std.specs.Prelude.{◌≡◌};
ghost use Rattle.sja_regs.specs.Modes.{mode_of, mode_byte};
ghost use Rattle.sja_regs.specs.Writing.{is_other_mode};

use super::bits::{bit_at, differ, is_set};
use super::letters::{AFM, LOM, RM, STM};

/// The mode register MOD (SJA1000 data sheet, 6.4.3). Bits 4 to 7 are ignored where written, and read 0 (this project's
/// own rule).
#[derive(Clone, Copy, Debug, PartialEq, Eq)]
pub struct Mode {
    /// Reset mode.
    pub rm: bool,
    /// Listen only mode.
    pub lom: bool,
    /// Self test mode.
    pub stm: bool,
    /// Acceptance filter mode: single.
    pub afm: bool,
}

impl Mode {
    /// The mode that a byte says.
    pub fn of(value: u8) -> Mode
        ensures { result ≡ mode_of value }
    {
        Mode {
            rm: is_set(value, RM),
            lom: is_set(value, LOM),
            stm: is_set(value, STM),
            afm: is_set(value, AFM),
        }
    }

    /// The byte that the register reads as.
    pub fn byte(self) -> u8
        ensures { result ≡ mode_byte self }
    {
        bit_at(RM, self.rm) + bit_at(LOM, self.lom) + bit_at(STM, self.stm) + bit_at(AFM, self.afm)
    }

    /// Whether LOM, STM or AFM differ from another mode's.
    pub(crate) fn is_other(self, new: Mode) -> bool
        ensures { result ≡ is_other_mode self new }
    {
        differ(self.lom, new.lom) || differ(self.stm, new.stm) || differ(self.afm, new.afm)
    }
}
