//! [`DriverSettings`]: what the driver alone sets of a port's registers.

use super::interrupts::Interrupts;
use super::mode::Mode;
use super::port::Port;
use std::marker::Model;

/// What the driver alone sets of a port's registers (this project's own rule): the version of the model, MOD, IER,
/// EWLR, what it wrote to TXERR and RXERR in reset mode, the acceptance codes and masks, and the transmit buffer. A
/// turn of the bus changes none of it but RM, at bus-off. A driver whose port stands behind a lock keeps them beside
/// it.
///
/// Contracts see them as `SettingsValue`.
#[derive(Debug, Drop)]
pub struct DriverSettings {
    pub(crate) version: u8,
    pub(crate) mode: Mode,
    pub(crate) enabled: Interrupts,
    pub(crate) ewlr: u8,
    pub(crate) set_tec: Option<u8>,
    pub(crate) set_rec: Option<u8>,
    pub(crate) acr: [u8; 4],
    pub(crate) amr: [u8; 4],
    pub(crate) buffer: [u8; 13],
}

impl Model for DriverSettings {
    ghost use Rattle.sja_regs.specs.DriverSettings.{SettingsValue, SettingsFacts};

    ghost Value = { SettingsValue };

    ghost view = { λ s. record {
      version = s.version;
      mode = s.mode;
      enabled = s.enabled;
      ewlr = s.ewlr;
      set_tec = s.set_tec;
      set_rec = s.set_rec;
      acr = s.acr;
      amr = s.amr;
      buffer = s.buffer;
    } };

    ghost invariant = { λ s. SettingsFacts s.version s.mode s.set_tec s.set_rec };
}

impl DriverSettings {
    ghost use Rattle.std.specs.Prelude.{◌≡◌};
    ghost use Rattle.sja_regs.specs.Registers.{at_power_on};
    ghost use Rattle.sja_regs.specs.DriverSettings.{settings_in};

    /// Those of a port after power-on: reset mode, no interrupt enabled, EWLR 60 (hexadecimal), ACR 0, AMR ff and a
    /// transmit buffer of 0.
    pub fn at_power_on(version: u8) -> DriverSettings
        ensures { result ≡ settings_in (at_power_on version) }
    {
        Port::new(version).settings()
    }
}

impl Port {
    ghost use Rattle.std.specs.Prelude.{◌≡◌};
    ghost use Rattle.sja_regs.specs.DriverSettings.{settings_in};

    /// What the driver has set.
    pub fn settings(&self) -> DriverSettings
        ensures { result ≡ settings_in self.now }
    {
        let registers = &self.registers;
        DriverSettings {
            version: registers.version,
            mode: registers.mode,
            enabled: registers.enabled,
            ewlr: registers.ewlr,
            set_tec: registers.set_tec,
            set_rec: registers.set_rec,
            acr: registers.acr,
            amr: registers.amr,
            buffer: registers.buffer,
        }
    }
}
