//! The names with which plans of version 3 are written.

ghost use Rattle.std.specs.Prelude.{◌≡◌, map, option_map, string_bytes, IfOk};
ghost use Rattle.std.specs.Option.{option_or};
ghost use Rattle.sja_plan_reading.specs.RegisterNames.{registers};
ghost use Rattle.sja_plan_text.specs.Names.{before_transmit, before_receive, name_in, register_name, name_or_number};
ghost use Rattle.sja_plan_text.specs.Names.{set_names, are_named, names_or_digits, value_word, message_word};

use can_frame::{Message, OutOfMemory};
use can_notation::text_of;
use sja_plan_reading::{REGISTERS, bit_names};
use std::alloc::Global;

/// How many names stand in `REGISTERS` before those of the transmit buffer.
const BEFORE_TRANSMIT: usize = 24;

/// How many stand before those of the receive buffer.
const BEFORE_RECEIVE: usize = 37;

/// The word of an address: this name, or the address in decimal where it has none.
pub(crate) fn address_word(
    alloc: Global,
    name: Option<&str>,
    address: u8,
) -> Result<String, OutOfMemory>
    ensures { IfOk result (λ t. string_bytes t ≡ name_or_number (option_map (λ n. n.now) name.entry) address) }
{
    match name {
        Some(name) => Ok(String::from_str(alloc, name)?),
        None => Ok(format!(in alloc; "{address}")?),
    }
}

/// The name of the register that is written at an address: from 16 to 28 a byte of the transmit buffer.
pub(crate) fn written_name(address: u8) -> Option<&'static str>
    ensures { option_map (λ name. name.now) result ≡ register_name before_transmit address }
{
    name_of(&REGISTERS[BEFORE_TRANSMIT..], address)
}

/// The name of the register that is read at an address: from 16 to 28 a byte of the receive buffer.
pub(crate) fn read_name(address: u8) -> Option<&'static str>
    ensures { option_map (λ name. name.now) result ≡ register_name before_receive address }
{
    name_of(&REGISTERS[BEFORE_RECEIVE..], address)
}

/// The name of an address in these rows, or else in all.
fn name_of(rows: &'static [(&'static str, u8)], address: u8) -> Option<&'static str>
    ensures { option_map (λ name. name.now) result
        ≡ option_or (name_in (map (λ r. (r.0.now, r.1)) rows.now) address) (name_in registers address) }
{
    match name_in(rows, address) {
        Some(name) => Some(name),
        None => name_in(&REGISTERS, address),
    }
}

/// The first name of an address in these rows.
fn name_in(rows: &'static [(&'static str, u8)], address: u8) -> Option<&'static str>
    ensures { option_map (λ name. name.now) result ≡ name_in (map (λ r. (r.0.now, r.1)) rows.now) address }
{
    for row in rows {
        if row.1 == address {
            return Some(row.0);
        }
    }
    None
}

/// The word of the value of the register at an address: the names of the bits that are set, with bars between them, or
/// two hexadecimal digits where no bit is set, or one without a name.
pub(crate) fn value_word(alloc: Global, address: u8, value: u8) -> Result<String, OutOfMemory>
    ensures { IfOk result (λ t. string_bytes t ≡ value_word address value) }
{
    match bit_names(address) {
        Some(names) => names_or_digits(alloc, set_names(alloc, names, value)?.as_slice(), value),
        None => Ok(hex::encode(alloc, &[value])?),
    }
}

/// Of the names of a register's bits those of the bits that are set in a byte, bit 0 first.
fn set_names(
    alloc: Global,
    names: &[&'static str; 8],
    value: u8,
) -> Result<Vec<&'static str>, OutOfMemory>
    ensures { IfOk result (λ v. map (λ name. name.now) v.items
        ≡ set_names (map (λ name. name.now) names.now) value) }
{
    let mut set = Vec::new(alloc);
    let mut rest = value;
    for name in names {
        if rest % 2 == 1 {
            set.push(*name)?;
        }
        rest /= 2;
    }
    Ok(set)
}

/// These names with bars between them; or the digits of the value, where none is set or one has no name.
fn names_or_digits(alloc: Global, set: &[&str], value: u8) -> Result<String, OutOfMemory>
    ensures { IfOk result (λ t. string_bytes t ≡ names_or_digits (map (λ name. name.now) set.now) value) }
{
    if are_named(set) {
        Ok(set.join(alloc, "|")?)
    } else {
        Ok(hex::encode(alloc, &[value])?)
    }
}

/// Whether a bit is set, and each that is has a name.
fn are_named(set: &[&str]) -> bool
    ensures { result ≡ are_named (map (λ name. name.now) set.now) }
{
    for name in set {
        if name.is_empty() {
            return false;
        }
    }
    !set.is_empty()
}

/// The frame of a message in can-utils' notation.
#[tactic(auto, using(crate::proofs::Spelling::Messages::frame_text))]
pub(crate) fn message_word(alloc: Global, message: &Message) -> Result<String, OutOfMemory>
    ensures { IfOk result (λ t. string_bytes t ≡ message_word message.now) }
{
    let characters = text_of(&message.frame());
    let mut text = String::new(alloc);
    text.push_str(unsafe { str::from_utf8_unchecked(characters.as_slice()) })?;
    Ok(text)
}
