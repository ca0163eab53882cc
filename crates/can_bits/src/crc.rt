//! The CRC sequence, and the CRC register level by level.

ghost use Rattle.std.specs.Prelude.{◌≡◌, ◌<◌, ◌+◌, ◌*◌, [], ◌∷◌, ◌++◌, List};
ghost use Rattle.can_levels.specs.declared.level.Level.{Level as Bus};
ghost use Rattle.can_levels.specs.Digits.{bits, value};
ghost use Rattle.can_levels.specs.Check.{Crc, IsMultiple};

use can_levels::Level;

/// The generator x^15 + x^14 + x^10 + x^8 + x^7 + x^4 + x^3 + 1 without its first term.
const GENERATOR: u16 = 0x4599;

/// The CRC sequence of these levels as a number below 2^15, its first level the most significant digit (CRC-15/CAN:
/// Bosch CAN 2.0 part A section 3.1.1, "CRC field").
pub fn crc_of(levels: &[Level]) -> u16
    ensures fits { result < 32768 }
    ensures crc { Crc levels.now (bits 15 result) }
    ensures only { (c : List Bus) → Crc levels.now c → c ≡ bits 15 result }
{
    let mut crc = 0;
    for level in levels {
        crc = crc_step(crc, *level);
    }
    crc
}

/// The CRC register after one level more: where the generator divides the levels followed by the register, it divides
/// the levels with this one more, followed by the result.
pub(crate) fn crc_step(crc: u16, level: Level) -> u16
    requires { crc < 32768 }
    ensures fits { result < 32768 }
    ensures divides { (b : List Bus) → IsMultiple (value b * 32768 + crc)
        → IsMultiple (value (b ++ level ∷ []) * 32768 + result) }
{
    let shifted = 2 * (crc % 0x4000);
    if crc >> 14 == u16::from(level.digit()) {
        shifted
    } else {
        shifted ^ GENERATOR
    }
}
