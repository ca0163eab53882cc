//! All that a port keeps, register by register.

ghost use Rattle.std.specs.Prelude.{◌≡◌};
ghost use Rattle.sja_regs.specs.ErrorStates.{causes_between};
ghost use Rattle.sja_regs.specs.Registers.{at_power_on, by_bytes, error_state_of, shown_state, status_of};
ghost use Rattle.sja_regs.specs.Registers.{interrupts_in};
ghost use Rattle.sja_regs.specs.Registers.{is_forced, gone_off, config_of};
ghost use Rattle.sja_regs.specs.Writing.{is_first_version};

use super::capture::Capture;
use super::error_state::ErrorState;
use super::interrupts::Interrupts;
use super::mode::Mode;
use super::status::Status;
use can_frame::{BufferView, Filter};
use can_node_rules::{Config, ERROR_PASSIVE};

/// A counter of this or more makes a node error passive.
const PASSIVE: u8 = ERROR_PASSIVE as u8;

/// The versions for drivers that know addresses and bytes alone begin here (this project's own rule).
const FIRST_BY_BYTES: u8 = 3;

/// TXERR written so asks for a bus-off (SJA1000 data sheet, 6.4.12).
pub(crate) const FORCES_OFF: u8 = 255;

/// All that a port keeps, in the data sheet's letters. Not kept is what follows: RBS, RI and RMC from what the driver
/// sees, and ES from the error counters.
#[derive(Debug, Drop)]
pub(crate) struct Registers {
    /// The version of the model, 1 to 3, or the one above those in a session without an end: version 1 has no LOM, no
    /// STM and no SRR.
    pub version: u8,
    /// How often reset mode was left, at most 2^64 - 1.
    pub activation: u64,
    /// MOD.
    pub mode: Mode,
    /// SR: data overrun status.
    pub dos: bool,
    /// SR: transmit buffer status.
    pub tbs: bool,
    /// SR: transmission complete status.
    pub tcs: bool,
    /// SR: receive status.
    pub rs: bool,
    /// SR: transmit status.
    pub ts: bool,
    /// SR: bus status.
    pub bs: bool,
    /// IR, but for RI.
    pub pending: Interrupts,
    /// IER.
    pub enabled: Interrupts,
    /// ALC.
    pub alc: Capture,
    /// ECC.
    pub ecc: Capture,
    /// EWLR.
    pub ewlr: u8,
    /// RXERR.
    pub rxerr: u8,
    /// TXERR.
    pub txerr: u8,
    /// What was written to TXERR since reset mode was entered, if anything.
    pub set_tec: Option<u8>,
    /// What was written to RXERR since reset mode was entered, if anything.
    pub set_rec: Option<u8>,
    /// The error state as it was when reset mode was entered: from version 3 on it is shown until reset mode is left.
    pub frozen: ErrorState,
    /// ACR0 to ACR3.
    pub acr: [u8; 4],
    /// AMR0 to AMR3.
    pub amr: [u8; 4],
    /// The transmit buffer.
    pub buffer: [u8; 13],
    /// An abort stands.
    pub abort: bool,
    /// The driver has ended.
    pub ended: bool,
    /// The bus has no bits left.
    pub closed: bool,
}

impl Registers {
    /// After power-on (SJA1000 data sheet, 6.4.2).
    pub(crate) fn at_power_on(version: u8) -> Registers
        ensures { result ≡ at_power_on version }
    {
        Registers {
            version,
            activation: 0,
            mode: Mode::of(0x01),
            dos: false,
            tbs: true,
            tcs: true,
            rs: true,
            ts: true,
            bs: false,
            pending: Interrupts::none(),
            enabled: Interrupts::none(),
            alc: Capture::new(),
            ecc: Capture::new(),
            ewlr: 0x60,
            rxerr: 0,
            txerr: 0,
            set_tec: None,
            set_rec: None,
            frozen: ErrorState {
                es: false,
                bs: false,
                passive: false,
            },
            acr: [0; 4],
            amr: [0xff; 4],
            buffer: [0; 13],
            abort: false,
            ended: false,
            closed: false,
        }
    }

    /// Whether this is the first version of the model.
    pub(crate) fn is_first_version(&self) -> bool
        ensures { result ≡ is_first_version self.now }
    {
        self.version == 1
    }

    /// Whether this version is one for drivers that know addresses and bytes alone.
    pub fn by_bytes(&self) -> bool
        ensures { result ≡ by_bytes self.now }
    {
        self.version >= FIRST_BY_BYTES
    }

    /// Whether a bus-off is asked for: TXERR was written 255 in reset mode.
    pub fn is_forced(&self) -> bool
        ensures { result ≡ is_forced self.now }
    {
        self.mode.rm && (self.by_bytes() && (self.set_tec.is_some() && self.txerr == FORCES_OFF))
    }

    /// Bus-off, as the counters and BS show it.
    pub fn go_off(&mut self)
        ensures { self.new ≡ gone_off self.old }
    {
        self.txerr = 127;
        self.rxerr = 0;
        self.bs = true;
    }

    /// How the controller starts.
    pub(crate) fn config(&self) -> Config
        ensures { result ≡ config_of self.now }
    {
        Config {
            filter: Filter {
                single: self.mode.afm,
                acr: self.acr,
                amr: self.amr,
            },
            self_test: self.mode.stm,
            listen: self.mode.lom,
            tec: self.set_tec,
            rec: self.set_rec,
        }
    }

    /// ES, BS and error passive, as the counters, the limit and bus-off make them.
    pub(crate) fn error_state(&self) -> ErrorState
        ensures { result ≡ error_state_of self.now }
    {
        ErrorState {
            es: (self.txerr >= self.ewlr || self.rxerr >= self.ewlr)
                || (self.by_bytes() && self.bs),
            bs: self.bs,
            passive: self.txerr >= PASSIVE || self.rxerr >= PASSIVE,
        }
    }

    /// What is shown of them: from version 3 on they stand still in reset mode.
    pub fn shown_state(&self) -> ErrorState
        ensures { result ≡ shown_state self.now }
    {
        if self.by_bytes() && self.mode.rm {
            self.frozen
        } else {
            self.error_state()
        }
    }

    /// Which of EI and EPI have a cause, where the error state that was shown becomes the one that is shown now.
    pub fn error_causes(&self, before: ErrorState) -> Interrupts
        ensures { result ≡ causes_between (by_bytes self.now) before (shown_state self.now) }
    {
        before.causes(self.by_bytes(), self.shown_state())
    }

    /// The status register.
    pub(crate) fn status(&self, seen: &BufferView) -> Status
        ensures { result ≡ status_of self.now seen.now }
    {
        let shown = self.shown_state();
        Status {
            rbs: seen.first.is_some(),
            dos: self.dos,
            tbs: self.tbs,
            tcs: self.tcs,
            rs: self.rs,
            ts: self.ts,
            es: shown.es,
            bs: shown.bs,
        }
    }

    /// The interrupt register.
    pub(crate) fn interrupts(&self, seen: &BufferView) -> Interrupts
        ensures { result ≡ interrupts_in self.now seen.now }
    {
        Interrupts {
            ri: seen.first.is_some() && self.enabled.ri,
            ..self.pending
        }
    }
}
