//! The addresses of the registers in PeliCAN mode, by the data sheet's names (SJA1000 data sheet, 6.4.1). No other file
//! of this crate has an address as a number.

/// MOD, mode.
pub const MOD: u8 = 0;
/// CMR, command.
pub const CMR: u8 = 1;
/// SR, status.
pub const SR: u8 = 2;
/// IR, interrupt.
pub const IR: u8 = 3;
/// IER, interrupt enable.
pub const IER: u8 = 4;
/// ALC, arbitration lost capture.
pub const ALC: u8 = 11;
/// ECC, error code capture.
pub const ECC: u8 = 12;
/// EWLR, error warning limit.
pub const EWLR: u8 = 13;
/// RXERR, receive error counter.
pub const RXERR: u8 = 14;
/// TXERR, transmit error counter.
pub const TXERR: u8 = 15;

/// ACR0, the first of the four acceptance codes, in reset mode.
pub const ACR0: u8 = 16;
/// ACR3, the last of them.
pub const ACR3: u8 = 19;
/// AMR0, the first of the four acceptance masks, in reset mode.
pub const AMR0: u8 = 20;
/// AMR3, the last of them.
pub const AMR3: u8 = 23;

/// The first byte of the transmit buffer where written and of the receive buffer where read, out of reset mode: the
/// frame information.
pub const BUFFER: u8 = 16;
/// The last byte of either, the thirteenth.
pub const BUFFER_END: u8 = 28;

/// RMC, receive message counter.
pub const RMC: u8 = 29;
