//! The places by their names (SJA1000 data sheet, 6.4.8 and 6.4.9). No other file has such a name.

ghost use Rattle.std.specs.Prelude.{◌≡◌, ◌&&◌};
ghost use Rattle.std.specs.Str.{str_eq_ignore_ascii_case};
ghost use Rattle.sja_plan_reading.specs.PlaceNames.{place_of_word, place_of_words};

use super::register_names::is_same_name;
use sja_plan::Place;

/// The places whose names are one word. A frame has at most 29 stuff bits.
pub static PLACES: [(&str, Place); 94] = [
    ("SOF", Place::Sof),
    ("ID.28", Place::Id(28)),
    ("ID.27", Place::Id(27)),
    ("ID.26", Place::Id(26)),
    ("ID.25", Place::Id(25)),
    ("ID.24", Place::Id(24)),
    ("ID.23", Place::Id(23)),
    ("ID.22", Place::Id(22)),
    ("ID.21", Place::Id(21)),
    ("ID.20", Place::Id(20)),
    ("ID.19", Place::Id(19)),
    ("ID.18", Place::Id(18)),
    ("ID.17", Place::Id(17)),
    ("ID.16", Place::Id(16)),
    ("ID.15", Place::Id(15)),
    ("ID.14", Place::Id(14)),
    ("ID.13", Place::Id(13)),
    ("ID.12", Place::Id(12)),
    ("ID.11", Place::Id(11)),
    ("ID.10", Place::Id(10)),
    ("ID.9", Place::Id(9)),
    ("ID.8", Place::Id(8)),
    ("ID.7", Place::Id(7)),
    ("ID.6", Place::Id(6)),
    ("ID.5", Place::Id(5)),
    ("ID.4", Place::Id(4)),
    ("ID.3", Place::Id(3)),
    ("ID.2", Place::Id(2)),
    ("ID.1", Place::Id(1)),
    ("ID.0", Place::Id(0)),
    ("SRR", Place::Srr),
    ("RTR", Place::Rtr),
    ("IDE", Place::Ide),
    ("r1", Place::R1),
    ("r0", Place::R0),
    ("DLC.3", Place::Dlc(3)),
    ("DLC.2", Place::Dlc(2)),
    ("DLC.1", Place::Dlc(1)),
    ("DLC.0", Place::Dlc(0)),
    ("CRC.14", Place::Crc(14)),
    ("CRC.13", Place::Crc(13)),
    ("CRC.12", Place::Crc(12)),
    ("CRC.11", Place::Crc(11)),
    ("CRC.10", Place::Crc(10)),
    ("CRC.9", Place::Crc(9)),
    ("CRC.8", Place::Crc(8)),
    ("CRC.7", Place::Crc(7)),
    ("CRC.6", Place::Crc(6)),
    ("CRC.5", Place::Crc(5)),
    ("CRC.4", Place::Crc(4)),
    ("CRC.3", Place::Crc(3)),
    ("CRC.2", Place::Crc(2)),
    ("CRC.1", Place::Crc(1)),
    ("CRC.0", Place::Crc(0)),
    ("ACK", Place::Ack),
    ("EOF.1", Place::Eof(1)),
    ("EOF.2", Place::Eof(2)),
    ("EOF.3", Place::Eof(3)),
    ("EOF.4", Place::Eof(4)),
    ("EOF.5", Place::Eof(5)),
    ("EOF.6", Place::Eof(6)),
    ("EOF.7", Place::Eof(7)),
    ("intermission.1", Place::Intermission(1)),
    ("intermission.2", Place::Intermission(2)),
    ("intermission.3", Place::Intermission(3)),
    ("stuff.1", Place::Stuff(1)),
    ("stuff.2", Place::Stuff(2)),
    ("stuff.3", Place::Stuff(3)),
    ("stuff.4", Place::Stuff(4)),
    ("stuff.5", Place::Stuff(5)),
    ("stuff.6", Place::Stuff(6)),
    ("stuff.7", Place::Stuff(7)),
    ("stuff.8", Place::Stuff(8)),
    ("stuff.9", Place::Stuff(9)),
    ("stuff.10", Place::Stuff(10)),
    ("stuff.11", Place::Stuff(11)),
    ("stuff.12", Place::Stuff(12)),
    ("stuff.13", Place::Stuff(13)),
    ("stuff.14", Place::Stuff(14)),
    ("stuff.15", Place::Stuff(15)),
    ("stuff.16", Place::Stuff(16)),
    ("stuff.17", Place::Stuff(17)),
    ("stuff.18", Place::Stuff(18)),
    ("stuff.19", Place::Stuff(19)),
    ("stuff.20", Place::Stuff(20)),
    ("stuff.21", Place::Stuff(21)),
    ("stuff.22", Place::Stuff(22)),
    ("stuff.23", Place::Stuff(23)),
    ("stuff.24", Place::Stuff(24)),
    ("stuff.25", Place::Stuff(25)),
    ("stuff.26", Place::Stuff(26)),
    ("stuff.27", Place::Stuff(27)),
    ("stuff.28", Place::Stuff(28)),
    ("stuff.29", Place::Stuff(29)),
];

/// The places whose names are two words.
pub static WIDE_PLACES: [(&str, &str, Place); 66] = [
    ("CRC", "delimiter", Place::CrcDelimiter),
    ("ACK", "delimiter", Place::AckDelimiter),
    ("data", "1.7", Place::Data(1, 7)),
    ("data", "1.6", Place::Data(1, 6)),
    ("data", "1.5", Place::Data(1, 5)),
    ("data", "1.4", Place::Data(1, 4)),
    ("data", "1.3", Place::Data(1, 3)),
    ("data", "1.2", Place::Data(1, 2)),
    ("data", "1.1", Place::Data(1, 1)),
    ("data", "1.0", Place::Data(1, 0)),
    ("data", "2.7", Place::Data(2, 7)),
    ("data", "2.6", Place::Data(2, 6)),
    ("data", "2.5", Place::Data(2, 5)),
    ("data", "2.4", Place::Data(2, 4)),
    ("data", "2.3", Place::Data(2, 3)),
    ("data", "2.2", Place::Data(2, 2)),
    ("data", "2.1", Place::Data(2, 1)),
    ("data", "2.0", Place::Data(2, 0)),
    ("data", "3.7", Place::Data(3, 7)),
    ("data", "3.6", Place::Data(3, 6)),
    ("data", "3.5", Place::Data(3, 5)),
    ("data", "3.4", Place::Data(3, 4)),
    ("data", "3.3", Place::Data(3, 3)),
    ("data", "3.2", Place::Data(3, 2)),
    ("data", "3.1", Place::Data(3, 1)),
    ("data", "3.0", Place::Data(3, 0)),
    ("data", "4.7", Place::Data(4, 7)),
    ("data", "4.6", Place::Data(4, 6)),
    ("data", "4.5", Place::Data(4, 5)),
    ("data", "4.4", Place::Data(4, 4)),
    ("data", "4.3", Place::Data(4, 3)),
    ("data", "4.2", Place::Data(4, 2)),
    ("data", "4.1", Place::Data(4, 1)),
    ("data", "4.0", Place::Data(4, 0)),
    ("data", "5.7", Place::Data(5, 7)),
    ("data", "5.6", Place::Data(5, 6)),
    ("data", "5.5", Place::Data(5, 5)),
    ("data", "5.4", Place::Data(5, 4)),
    ("data", "5.3", Place::Data(5, 3)),
    ("data", "5.2", Place::Data(5, 2)),
    ("data", "5.1", Place::Data(5, 1)),
    ("data", "5.0", Place::Data(5, 0)),
    ("data", "6.7", Place::Data(6, 7)),
    ("data", "6.6", Place::Data(6, 6)),
    ("data", "6.5", Place::Data(6, 5)),
    ("data", "6.4", Place::Data(6, 4)),
    ("data", "6.3", Place::Data(6, 3)),
    ("data", "6.2", Place::Data(6, 2)),
    ("data", "6.1", Place::Data(6, 1)),
    ("data", "6.0", Place::Data(6, 0)),
    ("data", "7.7", Place::Data(7, 7)),
    ("data", "7.6", Place::Data(7, 6)),
    ("data", "7.5", Place::Data(7, 5)),
    ("data", "7.4", Place::Data(7, 4)),
    ("data", "7.3", Place::Data(7, 3)),
    ("data", "7.2", Place::Data(7, 2)),
    ("data", "7.1", Place::Data(7, 1)),
    ("data", "7.0", Place::Data(7, 0)),
    ("data", "8.7", Place::Data(8, 7)),
    ("data", "8.6", Place::Data(8, 6)),
    ("data", "8.5", Place::Data(8, 5)),
    ("data", "8.4", Place::Data(8, 4)),
    ("data", "8.3", Place::Data(8, 3)),
    ("data", "8.2", Place::Data(8, 2)),
    ("data", "8.1", Place::Data(8, 1)),
    ("data", "8.0", Place::Data(8, 0)),
];

/// The place of this name of one word, in either case.
pub fn place_of_word(name: &str) -> Option<Place>
    ensures { result ≡ place_of_word name.now }
{
    for place in &PLACES {
        if is_same_name(place.0, name) {
            return Some(place.1);
        }
    }
    None
}

/// The place of this name of two words, in either case.
pub fn place_of_words(name: &str, more: &str) -> Option<Place>
    ensures { result ≡ place_of_words name.now more.now }
{
    for place in &WIDE_PLACES {
        if are_same_names(place.0, place.1, name, more) {
            return Some(place.2);
        }
    }
    None
}

/// Whether two names of two words are the same, in either case.
fn are_same_names(one: &str, behind: &str, name: &str, more: &str) -> bool
    ensures { result ≡ (str_eq_ignore_ascii_case one.now name.now && str_eq_ignore_ascii_case behind.now more.now) }
{
    is_same_name(one, name) && is_same_name(behind, more)
}
