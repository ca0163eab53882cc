//! Whether a controller is in reset mode, and whether its driver is out of reset.

ghost use Rattle.std.specs.Prelude.{◌≡◌};
ghost use Rattle.sja_driver.specs.AnyDrivers.{is_out};
ghost use Rattle.sja_driver.specs.LoggedDrivers.{driver_of, IsLawful};

use super::logged_driver::LoggedDriver;
use sja_regs::{Port, RegFault};

/// Whether the typed driver is out of reset: an activation was begun that hasn't ended.
pub(crate) fn is_out(typed: &LoggedDriver) -> bool
    requires { IsLawful typed.now }
    ensures { result ≡ is_out (driver_of typed.now) }
{
    typed.activation() > typed.log().left.len() as u64
}

/// Whether a controller is in reset mode, by its registers: it refuses every command then, even one without a bit.
pub fn is_reset(port: &Port) -> bool
    ensures { result ≡ port.now.mode.rm }
{
    matches!(port.judge_command(0), Err(RegFault::ActiveOnly))
}
