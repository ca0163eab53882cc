//! The words of an access: the address and the value that they spell.

ghost use Rattle.std.specs.Prelude.{◌≡◌, ◌≤◌, ℕ, IfOk, IfErr};
ghost use Rattle.sja_plan_reading.specs.Accesses.{byte_of, prefixed_byte, address_of, value_of, SpellsAddress};
ghost use Rattle.sja_plan_reading.specs.Accesses.{SpellsValue};

use super::named_byte::named_byte;
use super::register_names::register_address;
use super::text_fault::TextFault;
use super::word::number;
use sja_plan::FIRST_BY_BYTES;

/// The address that a word spells: 0 to 255 in decimal; in version 3 also in hexadecimal digits behind `0x`, or the
/// name of a register (this project's own rule).
///
/// Error: [`TextFault::Bad`] where it spells none.
pub fn address_of(version: usize, word: &str) -> Result<u8, TextFault>
    ensures ok { IfOk result (λ a. SpellsAddress version word.now a) }
    ensures err { IfErr result (λ e. (e ≡ TextFault.Bad) × ((a : ℕ) → ¬ SpellsAddress version word.now a)) }
{
    match spelled_address(version, word) {
        Some(address) if address <= 255 => Ok(address as u8),
        _ => Err(TextFault::Bad),
    }
}

/// The number that a word spells as an address.
fn spelled_address(version: usize, word: &str) -> Option<u32>
    ensures { result ≡ address_of version word.now }
{
    if let Some(address) = number(word) {
        return Some(address);
    }
    if version < usize::from(FIRST_BY_BYTES) {
        return None;
    }
    match prefixed_byte(word) {
        Some(address) => Some(u32::from(address)),
        None => Some(u32::from(register_address(word)?)),
    }
}

/// The value that a word spells for the register at an address: two hexadecimal digits; in version 3 also one or two
/// behind `0x`, or names of its bits with bars between them (this project's own rule).
///
/// Error: [`TextFault::Bad`] where it spells none.
pub fn value_of(version: usize, address: u8, word: &str) -> Result<u8, TextFault>
    ensures ok { IfOk result (λ v. SpellsValue version address word.now v) }
    ensures err { IfErr result (λ e. (e ≡ TextFault.Bad) × ((v : ℕ) → ¬ SpellsValue version address word.now v)) }
{
    match spelled_value(version, address, word) {
        Some(value) => Ok(value),
        None => Err(TextFault::Bad),
    }
}

/// The value that a word spells, where it spells one.
fn spelled_value(version: usize, address: u8, word: &str) -> Option<u8>
    ensures { result ≡ value_of version address word.now }
{
    if let Some(value) = two_digits(word.as_bytes()) {
        return Some(value);
    }
    if version < usize::from(FIRST_BY_BYTES) {
        return None;
    }
    match prefixed_byte(word) {
        Some(value) => Some(value),
        None => named_byte(address, word),
    }
}

/// The byte that one or two hexadecimal digits behind `0x` spell.
fn prefixed_byte(word: &str) -> Option<u8>
    ensures { result ≡ prefixed_byte word.now }
{
    match *word.as_bytes() {
        [b'0', b'x', digit] => two_digits(&[b'0', digit]),
        [b'0', b'x', high, low] => two_digits(&[high, low]),
        _ => None,
    }
}

/// The byte that two hexadecimal digits spell.
fn two_digits(word: &[u8]) -> Option<u8>
    ensures { result ≡ byte_of word.now }
{
    match <[u8; 1] as hex::FromHex>::from_hex(word) {
        Ok(bytes) => Some(bytes[0]),
        Err(_) => None,
    }
}
