//! [`ErrorFrame`]: an error frame of SocketCAN.

use super::interrupt::Interrupt;

/// The flag of error frames in an identifier (Linux, `linux/can.h`, `CAN_ERR_FLAG`).
const ERROR_FLAG: u32 = 0x2000_0000;
/// Bus-off (Linux, `linux/can/error.h`, `CAN_ERR_BUSOFF`).
const BUS_OFF: u32 = 0x040;
/// Back from bus-off (`CAN_ERR_RESTARTED`).
const RESTARTED: u32 = 0x100;

/// An error frame of SocketCAN, as Linux's driver of the SJA1000 sends it.
#[derive(Clone, Copy, Debug)]
pub(crate) enum ErrorFrame {
    /// Of what an interrupt told.
    Told(Interrupt),
    /// The controller went bus-off.
    BusOff,
    /// It came back.
    Restarted,
}

impl ErrorFrame {
    ghost use Rattle.std.specs.Prelude.{◌≡◌};
    ghost use Rattle.text_candump.specs.ErrorFrames.{classes, error_identifier, error_bytes};

    /// Its identifier.
    pub(crate) fn identifier(&self) -> u32
        ensures { result ≡ error_identifier self.now }
    {
        match self {
            ErrorFrame::Told(interrupt) => ERROR_FLAG + interrupt.classes(),
            ErrorFrame::BusOff => ERROR_FLAG + BUS_OFF,
            ErrorFrame::Restarted => ERROR_FLAG + RESTARTED,
        }
    }

    /// Its data bytes.
    pub(crate) fn bytes(&self) -> [u8; 8]
        ensures { result ≡ error_bytes self.now }
    {
        match self {
            ErrorFrame::Told(interrupt) => interrupt.bytes(),
            ErrorFrame::BusOff | ErrorFrame::Restarted => [0; 8],
        }
    }
}
