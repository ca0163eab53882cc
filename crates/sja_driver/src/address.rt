//! The addresses of the registers that are kept for a driver (SJA1000 data sheet, 6.4.1); those of all others stand in
//! [`sja_regs::address`].

/// BTR0, bus timing 0.
pub const BTR0: u8 = 6;
/// BTR1, bus timing 1.
pub const BTR1: u8 = 7;
/// OCR, output control.
pub const OCR: u8 = 8;
/// RBSA, the receive buffer's start address.
pub const RBSA: u8 = 30;
/// CDR, clock divider.
pub const CDR: u8 = 31;
