//! The names of fields.

ghost use Rattle.std.specs.Prelude.{◌≡◌};
ghost use Rattle.text_frames.specs.FieldNames.{field_name};

use super::field::Field;

/// The name of a field in a frame of this format (Bosch CAN 2.0 part B section 3.2; ISO 11898-1).
pub(crate) fn field_name(ext: bool, field: Field) -> &'static str
    ensures { result.now ≡ field_name ext field }
{
    match field {
        Field::Start => "SOF",
        Field::Identifier => if ext { "base ID" } else { "ID" },
        Field::FirstRemote => if ext { "SRR" } else { "RTR" },
        Field::Format => "IDE",
        Field::Extension => "ID extension",
        Field::SecondRemote => "RTR",
        Field::SecondReserved => "r1",
        Field::FirstReserved => "r0",
        Field::Length => "DLC",
        Field::Bytes => "data",
        Field::CrcSequence => "CRC sequence",
        Field::CrcDelimiter => "CRC delimiter",
        Field::AckSlot => "ACK slot",
        Field::AckDelimiter => "ACK delimiter",
        Field::Eof => "EOF",
        Field::Intermission => "intermission",
    }
}
