//! The bits of SR.

ghost use Rattle.std.specs.Prelude.{◌≡◌};
ghost use Rattle.sja_regs.specs.Statuses.{status_byte};

use super::bits::bit_at;
use super::letters::{BS, DOS, ES, RBS, RS, TBS, TCS, TS};

/// The status register SR (SJA1000 data sheet, 6.4.5).
#[derive(Clone, Copy, Debug, PartialEq, Eq)]
pub struct Status {
    /// Receive buffer status: a message is at the driver's end.
    pub rbs: bool,
    /// Data overrun status: a message was lost since the driver cleared this.
    pub dos: bool,
    /// Transmit buffer status: the driver may write the buffer.
    pub tbs: bool,
    /// Transmission complete status: the last request was sent.
    pub tcs: bool,
    /// Receive status.
    pub rs: bool,
    /// Transmit status.
    pub ts: bool,
    /// Error status: an error counter has come to the warning limit.
    pub es: bool,
    /// Bus status: bus-off.
    pub bs: bool,
}

impl Status {
    /// The byte that the register reads as.
    pub fn byte(self) -> u8
        ensures { result ≡ status_byte self }
    {
        bit_at(RBS, self.rbs)
            + bit_at(DOS, self.dos)
            + bit_at(TBS, self.tbs)
            + bit_at(TCS, self.tcs)
            + bit_at(RS, self.rs)
            + bit_at(TS, self.ts)
            + bit_at(ES, self.es)
            + bit_at(BS, self.bs)
    }
}
