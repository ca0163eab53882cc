//! The words for the fields of a frame, and for its end.

ghost use Rattle.std.specs.Prelude.{◌≡◌, ◌++◌, ◌∷◌, OnOk, IfOk, string_bytes};
ghost use Rattle.std.specs.List.{filter};
ghost use Rattle.lemmas.specs.Gathering.{gathered};
ghost use Rattle.text_frames.specs.FieldTexts.{is_of, is_stuff, field_text, field_or_bytes, fields_text, range_text};
ghost use Rattle.text_frames.specs.FieldTexts.{last_number, stuff_text, numbers_behind, last_text, ending_text};
ghost use Rattle.text_frames.specs.FieldTexts.{loss_text, break_text, cut_text};

use super::byte_texts::put_bytes;
use super::ending::Ending;
use super::field::{FIELDS, Field};
use super::field_names::field_name;
use super::frame_bit::FrameBit;
use super::last_bit::LastBit;
use can_levels::Segment;
use can_node_rules::Cause;
use std::alloc::{AllocError, Global};
use std::fmt::Write;
use text_trace::{cause_name, put_place, segment_name};

/// All fields after SOF that have bits, the data field byte by byte where `how` says so first; then it says whether the
/// frame is an extended one.
pub(crate) fn put_fields(
    alloc: Global,
    text: &mut String,
    how: (bool, bool),
    bits: &[FrameBit],
) -> Result<(), AllocError>
    ensures { OnOk result (string_bytes text.new ≡ string_bytes text.old ++ fields_text (how.0) (how.1) bits.now) }
{
    put_each(alloc, text, how, bits, &FIELDS)
}

/// Those of these fields that have bits.
fn put_each(
    alloc: Global,
    text: &mut String,
    how: (bool, bool),
    bits: &[FrameBit],
    fields: &[Field],
) -> Result<(), AllocError>
    ensures { OnOk result (string_bytes text.new ≡ string_bytes text.old
        ++ gathered (field_or_bytes (how.0) (how.1) bits.now) fields.now) }
{
    for field in fields {
        put_field(alloc, text, how, bits, *field)?;
    }
    Ok(())
}

/// A field, or its bytes, if it has bits.
fn put_field(
    alloc: Global,
    text: &mut String,
    how: (bool, bool),
    bits: &[FrameBit],
    field: Field,
) -> Result<(), AllocError>
    ensures { OnOk result (string_bytes text.new ≡ string_bytes text.old
        ++ field_or_bytes (how.0) (how.1) bits.now field) }
{
    let (each, ext) = how;
    let own = bits_of(alloc, bits, field)?;
    if each && field.is(Field::Bytes) {
        put_bytes(alloc, text, own.as_slice())
    } else {
        put_bits(alloc, text, field_name(ext, field), own.as_slice())
    }
}

/// A field, or a part of one, that has this name and these bits; nothing where there are none.
pub(crate) fn put_bits(
    alloc: Global,
    text: &mut String,
    name: &str,
    bits: &[FrameBit],
) -> Result<(), AllocError>
    ensures { OnOk result (string_bytes text.new ≡ string_bytes text.old ++ field_text name.now bits.now) }
{
    let stuff = stuff_bits(alloc, bits)?;
    put_range(text, name, bits, stuff.as_slice())
}

/// The bits of a field.
fn bits_of(alloc: Global, bits: &[FrameBit], field: Field) -> Result<Vec<FrameBit>, AllocError>
    ensures { IfOk result (λ own. own.items ≡ filter (is_of field) bits.now) }
{
    bits.iter()
        .filter(|bit| bit.is_of(field))
        .copied()
        .collect(alloc)
}

/// The stuff bits among bits.
fn stuff_bits(alloc: Global, bits: &[FrameBit]) -> Result<Vec<FrameBit>, AllocError>
    ensures { IfOk result (λ own. own.items ≡ filter is_stuff bits.now) }
{
    bits.iter().filter(|bit| bit.stuff).copied().collect(alloc)
}

/// A field of these bits, of which these are stuff bits; nothing where there are none.
fn put_range(
    text: &mut String,
    name: &str,
    bits: &[FrameBit],
    stuff: &[FrameBit],
) -> Result<(), AllocError>
    ensures { stuff.now ≡ filter is_stuff bits.now
        → OnOk result (string_bytes text.new ≡ string_bytes text.old ++ field_text name.now bits.now) }
{
    let [first, rest @ ..] = bits else {
        return Ok(());
    };
    write!(text, ", {name} ")?;
    put_numbers(text, first.bit, last_number(first, rest))?;
    put_stuff(text, stuff)
}

/// The number of the last one of these bits.
fn last_number(first: &FrameBit, rest: &[FrameBit]) -> u32
    ensures { result ≡ last_number first.now rest.now }
{
    let mut last = first.bit;
    for bit in rest {
        last = bit.bit;
    }
    last
}

/// From the first to the last number.
fn put_numbers(text: &mut String, first: u32, last: u32) -> Result<(), AllocError>
    ensures { OnOk result (string_bytes text.new ≡ string_bytes text.old ++ range_text first last) }
{
    if first == last {
        write!(text, "{first}")
    } else {
        write!(text, "{first}-{last}")
    }
}

/// The stuff bits, if there are any.
fn put_stuff(text: &mut String, bits: &[FrameBit]) -> Result<(), AllocError>
    ensures { OnOk result (string_bytes text.new ≡ string_bytes text.old ++ stuff_text bits.now) }
{
    let [first, rest @ ..] = bits else {
        return Ok(());
    };
    write!(text, " (stuff {}", first.bit)?;
    put_numbers_behind(text, rest)?;
    text.push_str(")")
}

/// The numbers of bits, each behind a comma.
fn put_numbers_behind(text: &mut String, bits: &[FrameBit]) -> Result<(), AllocError>
    ensures { OnOk result (string_bytes text.new ≡ string_bytes text.old ++ numbers_behind bits.now) }
{
    for bit in bits {
        write!(text, ", {}", bit.bit)?;
    }
    Ok(())
}

/// How a frame ended, if it isn't whole.
pub(crate) fn put_last(text: &mut String, last: LastBit) -> Result<(), AllocError>
    ensures { OnOk result (string_bytes text.new ≡ string_bytes text.old ++ last_text last) }
{
    put_ending(text, last.bit, last.ending)
}

/// The same, by the number of its last bit.
fn put_ending(text: &mut String, bit: u32, ending: Ending) -> Result<(), AllocError>
    ensures { OnOk result (string_bytes text.new ≡ string_bytes text.old ++ ending_text bit ending) }
{
    match ending {
        Ending::Whole => Ok(()),
        Ending::Lost(code) => put_loss(text, bit, code),
        Ending::Broken(cause, segment) => put_break(text, bit, cause, segment),
        Ending::CutOff => put_cut(text, bit),
    }
}

/// Lost arbitration.
fn put_loss(text: &mut String, bit: u32, code: u8) -> Result<(), AllocError>
    ensures { OnOk result (string_bytes text.new ≡ string_bytes text.old ++ loss_text bit code) }
{
    write!(text, "; arbitration lost in bit {bit}, ")?;
    put_place(text, code)
}

/// A fault.
fn put_break(text: &mut String, bit: u32, cause: Cause, segment: Segment) -> Result<(), AllocError>
    ensures { OnOk result (string_bytes text.new ≡ string_bytes text.old ++ break_text bit cause segment) }
{
    let cause = cause_name(cause);
    let segment = segment_name(segment);
    write!(text, "; broken off in bit {bit}: {cause} in {segment}")
}

/// More bits were to come.
fn put_cut(text: &mut String, bit: u32) -> Result<(), AllocError>
    ensures { OnOk result (string_bytes text.new ≡ string_bytes text.old ++ cut_text bit) }
{
    write!(text, "; cut off after bit {bit}")
}
