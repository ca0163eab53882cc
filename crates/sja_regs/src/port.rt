//! [`Port`]: the registers of one controller.

ghost use Rattle.std.specs.Prelude.{◌≡◌, true, if◌then◌else◌};

use super::orders::Orders;
use super::registers::Registers;
use can_node_rules::Config;
use std::marker::Model;

/// The registers of an SJA1000 controller in PeliCAN mode, between its bus and its driver.
///
/// Contracts see a port as its `Registers`, and `RegisterFacts` hold of every port. A register is read by
/// [`read`](Port::read) and written by [`write`](Port::write), but for what has a call of its own: CMR
/// ([`command`](Port::command)), the bit RM of MOD ([`leave_reset`](Port::leave_reset) and
/// [`enter_reset`](Port::enter_reset)), and a whole message for the transmit buffer ([`load`](Port::load)).
#[derive(Debug, Drop)]
pub struct Port {
    pub(crate) registers: Registers,
}

impl Model for Port {
    ghost use Rattle.sja_regs.specs.declared.registers.Registers.{Registers};
    ghost use Rattle.sja_regs.specs.Facts.{RegisterFacts};

    ghost Value = { Registers };

    ghost view = { λ p. p.registers };

    ghost invariant = { λ p. RegisterFacts p.registers };
}

impl Port {
    ghost use Rattle.sja_regs.specs.Registers.{at_power_on, config_of, after_leaving_reset, after_entering_reset};
    ghost use Rattle.sja_regs.specs.Registers.{is_forced};
    ghost use Rattle.sja_regs.specs.Facts.{RegisterFacts};

    /// A port after power-on: in reset mode, before its first activation. Version 1 of the model has no listen only
    /// mode, no self test mode and no self reception; every other version has them. Plans have versions 1 to 3; from 3
    /// on the rules are the same ones, so a session without an end may have a version above.
    pub fn new(version: u8) -> Port
        ensures { result ≡ at_power_on version }
    {
        Port {
            registers: Registers::at_power_on(version),
        }
    }

    /// The version of the model: 1 to 3, or the one above those in a session without an end.
    pub fn version(&self) -> u8
        ensures { result ≡ self.now.version }
    {
        self.registers.version
    }

    /// How the controller starts: acceptance filter, self test mode, listen only mode, and the error counters that were
    /// written in reset mode, in version 3 alone.
    pub fn config(&self) -> Config
        ensures { result ≡ config_of self.now }
    {
        self.registers.config()
    }

    /// Whether a write of MOD with RM 0 brings a bus-off in place of leaving reset mode: from version 3 on, where TXERR
    /// was written 255 in it (SJA1000 data sheet, 6.4.12).
    pub fn is_forced(&self) -> bool
        ensures { result ≡ is_forced self.now }
    {
        self.registers.is_forced()
    }

    /// Leaves reset mode for the next activation. They are numbered from 1, and the number stays at 2^64 - 1. From
    /// version 3 on what was written to EWLR, RXERR and TXERR shows from now on, and EI and EPI follow; TXERR written
    /// 255 is a bus-off from now on. A port that isn't in reset mode stays as it is.
    pub fn leave_reset(&mut self)
        ensures { self.new ≡ (if self.old.mode.rm then after_leaving_reset self.old else self.old) }
    {
        if !self.registers.mode.rm {
            return;
        }
        let before = self.registers.shown_state();
        let registers = &mut self.registers;
        if registers.is_forced() {
            registers.go_off();
        }
        registers.mode.rm = false;
        registers.activation = registers.activation.saturating_add(1);
        registers.set_tec = None;
        registers.set_rec = None;
        let causes = registers.error_causes(before);
        self.raise(causes);
    }

    /// Enters reset mode: the transmit buffer is released with no interrupt, no abort stands any more, DOS is 0, and RS
    /// and TS are 1. TCS, ALC and ECC stay, and so do pending interrupts, from version 3 on EI alone.
    pub fn enter_reset(&mut self)
        ensures { self.new ≡ after_entering_reset self.old }
    {
        let shown = self.registers.shown_state();
        let registers = &mut self.registers;
        registers.frozen = shown;
        if registers.by_bytes() {
            registers.pending = registers.pending.in_reset();
        }
        registers.mode.rm = true;
        registers.dos = false;
        registers.tbs = true;
        registers.rs = true;
        registers.ts = true;
        registers.abort = false;
    }

    /// What the driver wants of the bus. Who asks it learns what holds of every port too.
    pub fn orders(&self) -> Orders
        ensures orders { result ≡ record { abort = self.now.abort; ended = self.now.ended } }
        ensures facts { RegisterFacts self.now }
    {
        Orders {
            abort: self.registers.abort,
            ended: self.registers.ended,
        }
    }

    /// Marks that the bus has no bits left.
    pub fn close(&mut self)
        ensures { self.new ≡ record self.old { closed = true } }
    {
        self.registers.closed = true;
    }

    /// Marks that the driver has ended.
    pub fn finish(&mut self)
        ensures { self.new ≡ record self.old { ended = true } }
    {
        self.registers.ended = true;
    }

    /// Whether the bus has no bits left.
    pub fn closed(&self) -> bool
        ensures { result ≡ self.now.closed }
    {
        self.registers.closed
    }
}
