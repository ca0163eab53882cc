//! Bytes and their bits, which are numbered from 0, the lowest, to 7 (SJA1000 data sheet, 6.4.1). No other file has a
//! mask or a shift.

ghost use Rattle.std.specs.Prelude.{◌≡◌, ◌<◌, ◌≤◌, ◌*◌, ◌^◌};
ghost use Rattle.can_frame.specs.Message.{bit};
ghost use Rattle.sja_regs.specs.Bits.{is_set, differ};

/// Whether this bit of the byte is 1: `is_set(status, letters::TBS)` is what SR says of the transmit buffer.
pub fn is_set(value: u8, number: u8) -> bool
    requires { number < 8 }
    ensures { result ≡ is_set value number }
{
    (value >> number) & 1 == 1
}

/// The byte in which this bit is as given and all others are 0. The bits of a register are the sum of such bytes.
pub fn bit_at(number: u8, value: bool) -> u8
    requires { number < 8 }
    ensures value { result ≡ bit value * 2 ^ number }
    ensures within { result ≤ 2 ^ number }
{
    if value { 1 << number } else { 0 }
}

/// Whether two bits differ: of EI, whether ES or BS changed.
pub fn differ(a: bool, b: bool) -> bool
    ensures { result ≡ differ a b }
{
    a != b
}
