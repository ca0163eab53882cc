//! The bits of the registers, in the data sheet's letters: the number of each in its byte (SJA1000 data sheet, 6.4.3 to
//! 6.4.9). No other file of this crate has a bit's number.

/// MOD, reset mode.
pub const RM: u8 = 0;
/// MOD, listen only mode.
pub const LOM: u8 = 1;
/// MOD, self test mode.
pub const STM: u8 = 2;
/// MOD, acceptance filter mode: 1 is single.
pub const AFM: u8 = 3;

/// CMR, transmission request.
pub const TR: u8 = 0;
/// CMR, abort transmission.
pub const AT: u8 = 1;
/// CMR, release receive buffer.
pub const RRB: u8 = 2;
/// CMR, clear data overrun.
pub const CDO: u8 = 3;
/// CMR, self reception request.
pub const SRR: u8 = 4;

/// SR, receive buffer status.
pub const RBS: u8 = 0;
/// SR, data overrun status.
pub const DOS: u8 = 1;
/// SR, transmit buffer status.
pub const TBS: u8 = 2;
/// SR, transmission complete status.
pub const TCS: u8 = 3;
/// SR, receive status.
pub const RS: u8 = 4;
/// SR, transmit status.
pub const TS: u8 = 5;
/// SR, error status.
pub const ES: u8 = 6;
/// SR, bus status.
pub const BS: u8 = 7;

/// IR and IER, receive interrupt.
pub const RI: u8 = 0;
/// IR and IER, transmit interrupt.
pub const TI: u8 = 1;
/// IR and IER, error warning interrupt.
pub const EI: u8 = 2;
/// IR and IER, data overrun interrupt.
pub const DOI: u8 = 3;
/// IR and IER, wake-up interrupt.
pub const WUI: u8 = 4;
/// IR and IER, error passive interrupt.
pub const EPI: u8 = 5;
/// IR and IER, arbitration lost interrupt.
pub const ALI: u8 = 6;
/// IR and IER, bus error interrupt.
pub const BEI: u8 = 7;

/// ECC, direction: 1 for an error of a receiver.
pub const DIR: u8 = 5;
/// ECC, the lower of the two bits that say what kind of error it was.
pub const ERRC0: u8 = 6;
/// ECC, the upper one.
pub const ERRC1: u8 = 7;
