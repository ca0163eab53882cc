//! The registers by their names, and their addresses.

ghost use Rattle.std.specs.Prelude.{◌≡◌, IfSome};
ghost use Rattle.sja_regs.specs.Addresses.{register_at, IsPlace};

use super::address::{
    ACR0, ACR3, ALC, AMR0, AMR3, BUFFER, BUFFER_END, CMR, ECC, EWLR, IER, IR, MOD, RMC, RXERR, SR,
    TXERR,
};

/// A register of the controller in PeliCAN mode (SJA1000 data sheet, 6.4.1).
#[derive(Clone, Copy, Debug, PartialEq, Eq)]
pub enum Register {
    /// MOD.
    Mode,
    /// CMR.
    Command,
    /// SR.
    Status,
    /// IR.
    Interrupt,
    /// IER.
    InterruptEnable,
    /// ALC.
    ArbitrationLostCapture,
    /// ECC.
    ErrorCodeCapture,
    /// EWLR.
    ErrorWarningLimit,
    /// RXERR.
    ReceiveErrorCounter,
    /// TXERR.
    TransmitErrorCounter,
    /// ACR0 to ACR3.
    AcceptanceCode(u8),
    /// AMR0 to AMR3.
    AcceptanceMask(u8),
    /// A byte of the transmit buffer where written, of the receive buffer where read: 0 to 12.
    Buffer(u8),
    /// RMC.
    ReceiveMessageCounter,
}

impl Register {
    /// The register at an address, in reset mode (`reset`) or out of it; none at an address that has no register there.
    pub fn at(addr: u8, reset: bool) -> Option<Register>
        ensures value { result ≡ register_at reset addr }
        ensures place { IfSome result (λ register. IsPlace register) }
    {
        match addr {
            MOD => Some(Register::Mode),
            CMR => Some(Register::Command),
            SR => Some(Register::Status),
            IR => Some(Register::Interrupt),
            IER => Some(Register::InterruptEnable),
            ALC => Some(Register::ArbitrationLostCapture),
            ECC => Some(Register::ErrorCodeCapture),
            EWLR => Some(Register::ErrorWarningLimit),
            RXERR => Some(Register::ReceiveErrorCounter),
            TXERR => Some(Register::TransmitErrorCounter),
            ACR0..=ACR3 if reset => Some(Register::AcceptanceCode(addr - ACR0)),
            AMR0..=AMR3 if reset => Some(Register::AcceptanceMask(addr - AMR0)),
            BUFFER..=BUFFER_END if !reset => Some(Register::Buffer(addr - BUFFER)),
            RMC => Some(Register::ReceiveMessageCounter),
            _ => None,
        }
    }
}
