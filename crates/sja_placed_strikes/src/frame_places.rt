//! Places of frames: where a bit is, and which bit is there.

ghost use Rattle.std.specs.Prelude.{◌≡◌, ◌<◌, ◌^◌, []};
ghost use Rattle.std.specs.List.{count_by};
ghost use Rattle.text_frames.specs.FieldTexts.{is_stuff};
ghost use Rattle.text_frames.specs.FrameStories.{value_of};
ghost use Rattle.sja_placed_strikes.specs.FramePlaces.{place_of, place_in, is_plain_in, numbers_of, are_one, first_at};
ghost use Rattle.sja_placed_strikes.specs.FramePlaces.{bit_of};

use sja_plan::Place;
use text_frames::{Field, FrameBit, StartedFrame};

/// The bit of a frame that is at a place: the first one that is there.
pub fn bit_of(frame: &StartedFrame, place: Place) -> Option<u32>
    ensures { result ≡ bit_of (value_of frame.now).story place }
{
    if are_one(Place::Sof, place) {
        return Some(frame.sof);
    }
    first_at(frame.frame.ext(), place, frame.bits.as_slice())
}

/// The first of these bits of a frame of this format that is at a place.
fn first_at(ext: bool, place: Place, bits: &[FrameBit]) -> Option<u32>
    ensures { result ≡ first_at ext place [] bits.now }
{
    for index in 0..bits.len() {
        if are_one(place_of(ext, &bits[..index], &bits[index]), place) {
            return Some(bits[index].bit);
        }
    }
    None
}

/// The place of a bit of a frame of this format, behind these bits of the frame.
pub fn place_of(ext: bool, before: &[FrameBit], bit: &FrameBit) -> Place
    ensures { result ≡ place_of ext before.now bit.now }
{
    if bit.stuff {
        Place::Stuff(stuff_bits(before) + 1)
    } else {
        place_in(ext, bit.field, plain_bits(before, bit.field))
    }
}

/// How many of these bits are stuff bits.
fn stuff_bits(bits: &[FrameBit]) -> usize
    ensures value { result ≡ count_by is_stuff bits.now }
    ensures small { result < 2 ^ 62 }
{
    bits.iter().filter(|bit| bit.stuff).count()
}

/// How many of these bits are of this field, and no stuff bits.
fn plain_bits(bits: &[FrameBit], field: Field) -> usize
    ensures value { result ≡ count_by (is_plain_in field) bits.now }
    ensures small { result < 2 ^ 62 }
{
    bits.iter()
        .filter(|bit| !bit.stuff && bit.is_of(field))
        .count()
}

/// The place of a bit of this field of a frame of this format, behind so many bits of the field.
fn place_in(ext: bool, field: Field, index: usize) -> Place
    requires { index < 2 ^ 62 }
    ensures { result ≡ place_in ext field index }
{
    match field {
        Field::Start => Place::Sof,
        Field::Identifier => Place::Id(28usize.saturating_sub(index)),
        Field::FirstRemote => if ext { Place::Srr } else { Place::Rtr },
        Field::Format => Place::Ide,
        Field::Extension => Place::Id(17usize.saturating_sub(index)),
        Field::SecondRemote => Place::Rtr,
        Field::SecondReserved => Place::R1,
        Field::FirstReserved => Place::R0,
        Field::Length => Place::Dlc(3usize.saturating_sub(index)),
        Field::Bytes => Place::Data(index / 8 + 1, 7 - index % 8),
        Field::CrcSequence => Place::Crc(14usize.saturating_sub(index)),
        Field::CrcDelimiter => Place::CrcDelimiter,
        Field::AckSlot => Place::Ack,
        Field::AckDelimiter => Place::AckDelimiter,
        Field::Eof => Place::Eof(index + 1),
        Field::Intermission => Place::Intermission(index + 1),
    }
}

/// Whether two places are one.
fn are_one(one: Place, other: Place) -> bool
    ensures { result ≡ are_one one other }
{
    let (one, other) = (numbers_of(one), numbers_of(other));
    one.0 == other.0 && one.1 == other.1 && one.2 == other.2
}

/// The number of a place's name, and its own numbers.
fn numbers_of(place: Place) -> (u8, usize, usize)
    ensures { result ≡ numbers_of place }
{
    match place {
        Place::Sof => (0, 0, 0),
        Place::Id(bit) => (1, bit, 0),
        Place::Srr => (2, 0, 0),
        Place::Rtr => (3, 0, 0),
        Place::Ide => (4, 0, 0),
        Place::R1 => (5, 0, 0),
        Place::R0 => (6, 0, 0),
        Place::Dlc(bit) => (7, bit, 0),
        Place::Data(byte, bit) => (8, byte, bit),
        Place::Crc(bit) => (9, bit, 0),
        Place::CrcDelimiter => (10, 0, 0),
        Place::Ack => (11, 0, 0),
        Place::AckDelimiter => (12, 0, 0),
        Place::Eof(bit) => (13, bit, 0),
        Place::Intermission(bit) => (14, bit, 0),
        Place::Stuff(number) => (15, number, 0),
    }
}
