//! [`BusError`]: a fault, as the driver reads it.

use can_levels::Segment;
use can_node_rules::Cause;

/// The level on the bus isn't the one that was driven (Linux, `linux/can/error.h`, `CAN_ERR_PROT_BIT`).
const BIT: u8 = 0x01;
/// A fixed form isn't kept (`CAN_ERR_PROT_FORM`).
const FORM: u8 = 0x02;
/// Six equal levels where bits are stuffed (`CAN_ERR_PROT_STUFF`).
const STUFF: u8 = 0x04;
/// The error came in transmission (`CAN_ERR_PROT_TX`).
const TRANSMISSION: u8 = 0x80;

/// A fault, as the error code capture tells it (SJA1000 data sheet, 6.4.9).
#[derive(Clone, Copy, Debug)]
pub(crate) struct BusError {
    /// What was wrong.
    pub(crate) cause: Cause,
    /// The segment that it was in.
    pub(crate) segment: Segment,
    /// The node is receiver.
    pub(crate) receiving: bool,
}

impl BusError {
    ghost use Rattle.std.specs.Prelude.{◌≡◌, ◌≤◌};
    ghost use Rattle.text_candump.specs.ErrorFrames.{kind_bits, violation};

    /// What is wrong in the protocol, in data\[2\].
    pub(crate) fn violation(self) -> u8
        ensures { result ≡ violation self }
    {
        let direction = if self.receiving { 0 } else { TRANSMISSION };
        self.kind() + direction
    }

    /// The kind of it.
    fn kind(self) -> u8
        ensures is { result ≡ kind_bits self.cause }
        ensures small { result ≤ 4 }
    {
        match self.cause {
            Cause::Bit => BIT,
            Cause::Form => FORM,
            Cause::Stuff => STUFF,
            Cause::Crc | Cause::Ack => 0,
        }
    }
}
