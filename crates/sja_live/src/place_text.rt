//! The text of a place.

ghost use Rattle.std.specs.Prelude.{◌≡◌, ◌++◌, [], ◌∷◌, codes, string_bytes, OnOk};
ghost use Rattle.sja_live.specs.PlaceTexts.{place_text};
ghost use Rattle.text_report.specs.ReportLines.{line_text};

use sja_plan::Place;
use std::alloc::AllocError;
use std::fmt::Write;

/// Writes the line of a place.
///
/// Error: memory was refused.
pub(crate) fn put_place(text: &mut String, place: Place) -> Result<(), AllocError>
    ensures { OnOk result (string_bytes text.new
        ≡ string_bytes text.old ++ line_text (codes "place" ∷ place_text place ∷ [])) }
{
    text.push_str("place ")?;
    put_name(text, place)?;
    text.push_str("\n")
}

/// Writes the name of a place, as plans have it.
///
/// Error: memory was refused.
fn put_name(text: &mut String, place: Place) -> Result<(), AllocError>
    ensures { OnOk result (string_bytes text.new ≡ string_bytes text.old ++ place_text place) }
{
    match place {
        Place::Sof => text.push_str("SOF"),
        Place::Id(bit) => write!(text, "ID.{bit}"),
        Place::Srr => text.push_str("SRR"),
        Place::Rtr => text.push_str("RTR"),
        Place::Ide => text.push_str("IDE"),
        Place::R1 => text.push_str("r1"),
        Place::R0 => text.push_str("r0"),
        Place::Dlc(bit) => write!(text, "DLC.{bit}"),
        Place::Data(byte, bit) => write!(text, "data {byte}.{bit}"),
        Place::Crc(bit) => write!(text, "CRC.{bit}"),
        Place::CrcDelimiter => text.push_str("CRC delimiter"),
        Place::Ack => text.push_str("ACK"),
        Place::AckDelimiter => text.push_str("ACK delimiter"),
        Place::Eof(bit) => write!(text, "EOF.{bit}"),
        Place::Intermission(bit) => write!(text, "intermission.{bit}"),
        Place::Stuff(number) => write!(text, "stuff.{number}"),
    }
}
