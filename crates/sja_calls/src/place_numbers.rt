//! The places of a frame as numbers of a program in C.

ghost use Rattle.std.specs.Prelude.{◌≡◌, Some};
ghost use Rattle.sja_calls.specs.PlaceNumbers.{between, place_of, number_of, number_if, data_of};

use sja_plan::Place;

/// The place of this number, if it is one's: 256 times the number of its name, and its own one.
pub(crate) fn place_of(number: u32) -> Option<Place>
    ensures { result ≡ place_of number }
{
    let index = (number % 256) as usize;
    match number / 256 {
        1 => between(0, 0, index, Place::Sof),
        2 => between(0, 28, index, Place::Id(index)),
        3 => between(0, 0, index, Place::Srr),
        4 => between(0, 0, index, Place::Rtr),
        5 => between(0, 0, index, Place::Ide),
        6 => between(0, 0, index, Place::R1),
        7 => between(0, 0, index, Place::R0),
        8 => between(0, 3, index, Place::Dlc(index)),
        9 => data_of(index / 10, index % 10),
        10 => between(0, 14, index, Place::Crc(index)),
        11 => between(0, 0, index, Place::CrcDelimiter),
        12 => between(0, 0, index, Place::Ack),
        13 => between(0, 0, index, Place::AckDelimiter),
        14 => between(1, 7, index, Place::Eof(index)),
        15 => between(1, 3, index, Place::Intermission(index)),
        16 => between(1, 29, index, Place::Stuff(index)),
        _ => None,
    }
}

/// A place, where its own number is within these.
fn between(least: usize, most: usize, index: usize, place: Place) -> Option<Place>
    ensures { result ≡ between least most index place }
{
    if least <= index && index <= most {
        Some(place)
    } else {
        None
    }
}

/// A bit of a data byte, where both are there.
fn data_of(byte: usize, bit: usize) -> Option<Place>
    ensures { result ≡ data_of byte bit }
{
    if bit > 7 {
        return None;
    }
    between(1, 8, byte, Place::Data(byte, bit))
}

/// The number of a place, or 0 where there is none.
pub(crate) fn number_if(place: Option<Place>) -> u64
    ensures { result ≡ number_if place }
{
    match place {
        Some(place) => number_of(place),
        None => 0,
    }
}

/// The number of a place.
fn number_of(place: Place) -> u64
    ensures { result ≡ number_of place }
{
    match place {
        Place::Sof => 256,
        Place::Id(bit) => 512 + bit as u64 % 256,
        Place::Srr => 768,
        Place::Rtr => 1024,
        Place::Ide => 1280,
        Place::R1 => 1536,
        Place::R0 => 1792,
        Place::Dlc(bit) => 2048 + bit as u64 % 256,
        Place::Data(byte, bit) => 2304 + 10 * (byte as u64 % 16) + bit as u64 % 8,
        Place::Crc(bit) => 2560 + bit as u64 % 256,
        Place::CrcDelimiter => 2816,
        Place::Ack => 3072,
        Place::AckDelimiter => 3328,
        Place::Eof(bit) => 3584 + bit as u64 % 256,
        Place::Intermission(bit) => 3840 + bit as u64 % 256,
        Place::Stuff(number) => 4096 + number as u64 % 256,
    }
}
