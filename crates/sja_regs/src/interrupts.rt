//! The bits of IR and IER.

ghost use Rattle.std.specs.Prelude.{◌≡◌, ◌||◌, ◌&&◌, ◌==◌, not};
ghost use Rattle.sja_regs.specs.Interrupting.{interrupts_of, interrupts_byte, no_interrupt, pending_after};

use super::bits::{bit_at, is_set};
use super::letters::{ALI, BEI, DOI, EI, EPI, RI, TI, WUI};

/// The bits of the interrupt register IR and of the interrupt enable register IER (SJA1000 data sheet, 6.4.6 and
/// 6.4.7).
#[derive(Clone, Copy, Debug, PartialEq, Eq)]
pub struct Interrupts {
    /// Receive interrupt.
    pub ri: bool,
    /// Transmit interrupt.
    pub ti: bool,
    /// Error warning interrupt.
    pub ei: bool,
    /// Data overrun interrupt.
    pub doi: bool,
    /// Wake-up interrupt. It never comes.
    pub wui: bool,
    /// Error passive interrupt.
    pub epi: bool,
    /// Arbitration lost interrupt.
    pub ali: bool,
    /// Bus error interrupt.
    pub bei: bool,
}

impl Interrupts {
    /// No interrupt.
    pub fn none() -> Interrupts
        ensures { result ≡ no_interrupt }
    {
        Interrupts {
            ri: false,
            ti: false,
            ei: false,
            doi: false,
            wui: false,
            epi: false,
            ali: false,
            bei: false,
        }
    }

    /// EI of these alone, which stays as reset mode is entered (SJA1000 data sheet, 6.4.2, reset values).
    pub(crate) fn in_reset(self) -> Interrupts
        ensures { result ≡ record no_interrupt { ei = self.ei } }
    {
        Interrupts {
            ei: self.ei,
            ..Interrupts::none()
        }
    }

    /// The interrupts that a byte says.
    pub fn of(value: u8) -> Interrupts
        ensures { result ≡ interrupts_of value }
    {
        Interrupts {
            ri: is_set(value, RI),
            ti: is_set(value, TI),
            ei: is_set(value, EI),
            doi: is_set(value, DOI),
            wui: is_set(value, WUI),
            epi: is_set(value, EPI),
            ali: is_set(value, ALI),
            bei: is_set(value, BEI),
        }
    }

    /// The byte that the register reads as.
    pub fn byte(self) -> u8
        ensures { result ≡ interrupts_byte self }
    {
        bit_at(RI, self.ri)
            + bit_at(TI, self.ti)
            + bit_at(EI, self.ei)
            + bit_at(DOI, self.doi)
            + bit_at(WUI, self.wui)
            + bit_at(EPI, self.epi)
            + bit_at(ALI, self.ali)
            + bit_at(BEI, self.bei)
    }

    /// Whether some bit is 1.
    pub(crate) fn is_any(self) -> bool
        ensures { result ≡ not (interrupts_byte self == 0) }
    {
        self.ri || self.ti || self.ei || self.doi || self.wui || self.epi || self.ali || self.bei
    }

    /// What is pending where these were, and the causes came: each of them that is enabled too.
    pub(crate) fn raised(self, enabled: Interrupts, causes: Interrupts) -> Interrupts
        ensures { result ≡ pending_after self enabled causes }
    {
        Interrupts {
            ri: raise(self.ri, enabled.ri, causes.ri),
            ti: raise(self.ti, enabled.ti, causes.ti),
            ei: raise(self.ei, enabled.ei, causes.ei),
            doi: raise(self.doi, enabled.doi, causes.doi),
            wui: raise(self.wui, enabled.wui, causes.wui),
            epi: raise(self.epi, enabled.epi, causes.epi),
            ali: raise(self.ali, enabled.ali, causes.ali),
            bei: raise(self.bei, enabled.bei, causes.bei),
        }
    }
}

/// Whether one interrupt is pending, once its cause came or didn't.
fn raise(pending: bool, enabled: bool, cause: bool) -> bool
    ensures { result ≡ (cause && enabled || pending) }
{
    (cause && enabled) || pending
}
