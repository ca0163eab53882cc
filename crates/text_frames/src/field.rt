//! [`Field`]: the fields of a frame.

use can_levels::Segment;
use can_node_rules::Phase;
use sja_replay::BitEvent;

/// The fields of a frame (Bosch CAN 2.0 part A section 3.1.1 and part B section 3.2), and the intermission after it.
#[derive(Clone, Copy, Debug)]
pub enum Field {
    /// SOF.
    Start,
    /// The identifier of a standard frame, or the base identifier of an extended one.
    Identifier,
    /// RTR of a standard frame, or SRR of an extended one.
    FirstRemote,
    /// IDE.
    Format,
    /// The identifier extension.
    Extension,
    /// RTR of an extended frame.
    SecondRemote,
    /// Reserved bit 1.
    SecondReserved,
    /// Reserved bit 0.
    FirstReserved,
    /// DLC.
    Length,
    /// The data field.
    Bytes,
    /// The CRC sequence.
    CrcSequence,
    /// The CRC delimiter.
    CrcDelimiter,
    /// The ACK slot.
    AckSlot,
    /// The ACK delimiter.
    AckDelimiter,
    /// EOF.
    Eof,
    /// Intermission.
    Intermission,
}

/// The fields after SOF, in the order in which they come.
pub(crate) const FIELDS: [Field; 15] = [
    Field::Identifier,
    Field::FirstRemote,
    Field::Format,
    Field::Extension,
    Field::SecondRemote,
    Field::SecondReserved,
    Field::FirstReserved,
    Field::Length,
    Field::Bytes,
    Field::CrcSequence,
    Field::CrcDelimiter,
    Field::AckSlot,
    Field::AckDelimiter,
    Field::Eof,
    Field::Intermission,
];

impl Field {
    ghost use Rattle.std.specs.Prelude.{◌≡◌};
    ghost use Rattle.text_frames.specs.FrameBits.{field_in};
    ghost use Rattle.text_frames.specs.Passing.{field_by};
    ghost use Rattle.text_frames.specs.Fields.{field_if, field_of, place_of, are_one, is_stuffed};

    /// The field of a bit after SOF.
    pub fn of(bit: &BitEvent) -> Field
        ensures { result ≡ field_in bit.now }
    {
        Field::of_bit(bit.before.phase, bit.before.segment)
    }

    /// The field of a bit after SOF in this phase, which belongs to this segment, or to none.
    pub fn of_bit(phase: Phase, segment: Option<Segment>) -> Field
        ensures { result ≡ field_by phase segment }
    {
        match phase {
            Phase::Intermission => Field::Intermission,
            _ => Field::of_segment_if(segment),
        }
    }

    /// The field of a bit that belongs to a segment, or to none.
    fn of_segment_if(segment: Option<Segment>) -> Field
        ensures { result ≡ field_if segment }
    {
        match segment {
            Some(segment) => Field::of_segment(segment),
            None => Field::Intermission,
        }
    }

    /// The field that a segment of the error code capture belongs to (SJA1000 data sheet, 6.4.9).
    fn of_segment(segment: Segment) -> Field
        ensures { result ≡ field_of segment }
    {
        match segment {
            Segment::StartOfFrame => Field::Start,
            Segment::Id28To21 | Segment::Id20To18 => Field::Identifier,
            Segment::RtrStandard => Field::FirstRemote,
            Segment::Ide => Field::Format,
            Segment::Id17To13 | Segment::Id12To5 | Segment::Id4To0 => Field::Extension,
            Segment::RtrExtended => Field::SecondRemote,
            Segment::Reserved1 => Field::SecondReserved,
            Segment::Reserved0 => Field::FirstReserved,
            Segment::DataLengthCode => Field::Length,
            Segment::Data => Field::Bytes,
            Segment::CrcSequence => Field::CrcSequence,
            Segment::CrcDelimiter => Field::CrcDelimiter,
            Segment::AckSlot => Field::AckSlot,
            Segment::AckDelimiter => Field::AckDelimiter,
            Segment::EndOfFrame => Field::Eof,
            Segment::ActiveErrorFlag | Segment::Delimiter | Segment::OverloadFlag =>
                Field::Intermission,
        }
    }

    /// Its place in the order of fields.
    fn place(self) -> u8
        ensures { result ≡ place_of self }
    {
        match self {
            Field::Start => 0,
            Field::Identifier => 1,
            Field::FirstRemote => 2,
            Field::Format => 3,
            Field::Extension => 4,
            Field::SecondRemote => 5,
            Field::SecondReserved => 6,
            Field::FirstReserved => 7,
            Field::Length => 8,
            Field::Bytes => 9,
            Field::CrcSequence => 10,
            Field::CrcDelimiter => 11,
            Field::AckSlot => 12,
            Field::AckDelimiter => 13,
            Field::Eof => 14,
            Field::Intermission => 15,
        }
    }

    /// Whether two fields are one.
    pub(crate) fn is(self, other: Field) -> bool
        ensures { result ≡ are_one self other }
    {
        self.place() == other.place()
    }

    /// Whether it is coded by bit stuffing (Bosch CAN 2.0 part A section 5).
    pub fn is_stuffed(self) -> bool
        ensures { result ≡ is_stuffed self }
    {
        !matches!(
            self,
            Field::CrcDelimiter
                | Field::AckSlot
                | Field::AckDelimiter
                | Field::Eof
                | Field::Intermission
        )
    }
}
