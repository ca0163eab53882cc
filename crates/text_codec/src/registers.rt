//! `registers B`: what the registers of each node read as.

ghost use Rattle.std.specs.Prelude.{◌≡◌, ◌<◌, ◌≤◌, ◌++◌, IfOk, OnOk, map, option_map};
ghost use Rattle.text_codec.specs.RegistersText.{bit_part, bits_part, name_part, names_part, place_part};
ghost use Rattle.text_codec.specs.RegistersText.{registers_text};
ghost use Rattle.text_codec.specs.RegistersText.{row_line};

use super::bytes_text::push_byte;
use sja_log::RegisterRow;
use sja_plan_reading::{bit_names, name_read};
use std::alloc::{AllocError, Global};

/// A line for each row: the node, the register's name, two hexadecimal digits, and the names of the bits that are 1,
/// the highest first.
pub fn registers_told(alloc: Global, rows: &[RegisterRow]) -> Result<Vec<u8>, AllocError>
    ensures { IfOk result (λ text. text.items ≡ registers_text rows.now) }
{
    let mut text = Vec::new(alloc);
    for row in rows {
        push_row(alloc, &mut text, *row)?;
    }
    Ok(text)
}

/// The line of a row.
fn push_row(alloc: Global, text: &mut Vec<u8>, row: RegisterRow) -> Result<(), AllocError>
    ensures { OnOk result (text.new.items ≡ text.old.items ++ row_line row) }
{
    let node = row.node;
    let start = format!(in alloc; "node {node} ")?;
    text.extend_from_slice(start.as_bytes())?;
    push_name(text, row.reset, row.address)?;
    text.push(b' ')?;
    push_byte(text, row.value)?;
    push_bits(text, row.address, row.value)?;
    text.push(b'\n')?;
    Ok(())
}

/// The name of what is read at an address, in reset mode or out of it.
fn push_name(text: &mut Vec<u8>, reset: bool, address: u8) -> Result<(), AllocError>
    ensures { OnOk result (text.new.items ≡ text.old.items ++ name_part reset address) }
{
    match name_read(reset, address) {
        Some(name) => text.extend_from_slice(name.as_bytes()),
        None => Ok(()),
    }
}

/// The names of the bits of the register at an address that are 1, if its bits have names.
fn push_bits(text: &mut Vec<u8>, address: u8, value: u8) -> Result<(), AllocError>
    ensures { OnOk result (text.new.items ≡ text.old.items ++ names_part address value) }
{
    match bit_names(address) {
        Some(names) => push_names(text, names, value),
        None => Ok(()),
    }
}

/// Of these names those of the bits that are 1, each behind a space.
fn push_names(text: &mut Vec<u8>, names: &[&'static str; 8], value: u8) -> Result<(), AllocError>
    ensures { OnOk result (text.new.items
        ≡ text.old.items ++ bits_part (map (λ name. name.now) names.now) value) }
{
    push_place(text, names, value, 7, 128)?;
    push_place(text, names, value, 6, 64)?;
    push_place(text, names, value, 5, 32)?;
    push_place(text, names, value, 4, 16)?;
    push_place(text, names, value, 3, 8)?;
    push_place(text, names, value, 2, 4)?;
    push_place(text, names, value, 1, 2)?;
    push_place(text, names, value, 0, 1)?;
    Ok(())
}

/// Of these names that of the bit at this place, which is worth so much, behind a space, if it is 1 and has one.
fn push_place(
    text: &mut Vec<u8>,
    names: &[&'static str; 8],
    value: u8,
    place: usize,
    worth: u8,
) -> Result<(), AllocError>
    requires place { place < 8 }
    requires worth { 1 ≤ worth }
    ensures { OnOk result (text.new.items
        ≡ text.old.items ++ place_part (map (λ name. name.now) names.now) value place worth) }
{
    push_bit(text, names[place], value, worth)
}

/// The name of a bit that is worth so much behind a space, if it is 1 and has one.
fn push_bit(text: &mut Vec<u8>, name: &str, value: u8, worth: u8) -> Result<(), AllocError>
    requires { 1 ≤ worth }
    ensures { OnOk result (text.new.items ≡ text.old.items ++ bit_part name.now value worth) }
{
    if value / worth % 2 == 0 || name.is_empty() {
        return Ok(());
    }
    text.push(b' ')?;
    text.extend_from_slice(name.as_bytes())
}
