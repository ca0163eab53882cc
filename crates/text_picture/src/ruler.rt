//! The ruler over a block.

ghost use Rattle.std.specs.Prelude.{◌≡◌, ◌++◌, ◌<◌, ◌%◌, ◌^◌, OnOk, string_bytes, slice_get, codes};
ghost use Rattle.std.specs.Str.{IsAscii};
ghost use Rattle.text_picture.specs.Rows.{character_if, ruler_in};
ghost use Rattle.text_picture.specs.PictureText.{row, to_ten, end_of_ten};
ghost use Rattle.text_picture.specs.Pages.{ten_of};

use std::alloc::{AllocError, Global};
use std::fmt::Write;

/// The ruler over a block that begins with this bit and has so many.
pub(crate) fn put_ruler(
    alloc: Global,
    text: &mut String,
    bit: u32,
    many: u32,
) -> Result<(), AllocError>
    ensures { OnOk result (string_bytes text.new ≡ string_bytes text.old
        ++ row (codes "bit     ") ruler_in bit (to_ten bit many)) }
{
    let mut ten = String::new(alloc);
    text.push_str("bit     ")?;
    let first = u64::from(bit);
    let last = (first + u64::from(many)).saturating_sub(1);
    write_ten(&mut ten, first)?;
    for number in first..end_of_ten(last) {
        begin_ten(&mut ten, number)?;
        put_character(text, ten.as_str().as_bytes(), number % 10)?;
    }
    text.push('\n')?;
    Ok(())
}

/// The number of the ten that begins with this bit; else that of the ten it is in stands there.
fn begin_ten(ten: &mut String, number: u64) -> Result<(), AllocError>
    ensures { OnOk result ((0 < number % 10 → string_bytes ten.old ≡ ten_of number) →
        string_bytes ten.new ≡ ten_of number) }
{
    if number % 10 > 0 {
        return Ok(());
    }
    write_ten(ten, number)
}

/// The number of the ten in which this bit is.
fn write_ten(ten: &mut String, number: u64) -> Result<(), AllocError>
    ensures { OnOk result (string_bytes ten.new ≡ ten_of number) }
{
    ten.clear();
    write!(ten, "{}", number - number % 10)
}

/// The end of the ten in which a bit is.
fn end_of_ten(last: u64) -> u64
    requires { last < 2 ^ 34 }
    ensures { result ≡ end_of_ten last }
{
    (last - last % 10) + 10
}

/// The character at a place of a text, and a space behind it.
#[tactic(auto, using(crate::proofs::WholePage::RulerNumbers::character_is))]
fn put_character(text: &mut String, characters: &[u8], place: u64) -> Result<(), AllocError>
    requires { IsAscii characters.now }
    ensures { OnOk result (string_bytes text.new ≡ string_bytes text.old
        ++ character_if (slice_get characters.now place)) }
{
    match characters.get(place as usize).copied() {
        Some(character) => text.push(char::from(character)),
        None => text.push(' '),
    }
}
