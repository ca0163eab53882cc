//! Writes of MOD, by the bits that stand there and those that are written.

ghost use Rattle.std.specs.Prelude.{◌≡◌};
ghost use Rattle.sja_regs.specs.Writing.{is_other_mode};
ghost use Rattle.sja_driver.specs.ModeWrites.{reset_byte};
ghost use Rattle.sja_driver.specs.Inside.Modes.{is_written};

use super::in_reset::is_reset;
use sja_regs::bits::differ;
use sja_regs::{Mode, Port};

/// MOD, as the port has it.
pub(crate) fn mode_in(port: &Port) -> Mode
    ensures { result ≡ port.now.mode }
{
    let config = port.config();
    Mode {
        rm: is_reset(port),
        lom: config.listen,
        stm: config.self_test,
        afm: config.filter.single,
    }
}

/// Whether this mode is written by the typed driver's write: RM as it is, or a bus-off is asked for.
pub(crate) fn is_written(port: &Port, new: Mode) -> bool
    ensures { result ≡ is_written port.now new }
{
    !differ(is_reset(port), new.rm) || port.is_forced()
}

/// Whether LOM, STM or AFM differ.
pub(crate) fn is_other_mode(now: Mode, new: Mode) -> bool
    ensures { result ≡ is_other_mode now new }
{
    differ(now.lom, new.lom) || differ(now.stm, new.stm) || differ(now.afm, new.afm)
}

/// The byte of MOD with RM at 1 that has these other bits.
pub(crate) fn reset_byte(mode: Mode) -> u8
    ensures { result ≡ reset_byte mode }
{
    Mode { rm: true, ..mode }.byte()
}
