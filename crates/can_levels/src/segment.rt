//! The segments of a frame, as the error code capture register (ECC) names them.

ghost use Rattle.std.specs.Prelude.{◌≡◌};

/// A segment of a frame, of a flag or of a delimiter, as the error code capture register names them (SJA1000 data
/// sheet, 6.4.9).
#[derive(Clone, Copy, Debug, Default, PartialEq, Eq)]
pub enum Segment {
    /// SOF, the start of frame.
    #[default]
    StartOfFrame,
    /// ID.28 to ID.21.
    Id28To21,
    /// ID.20 to ID.18.
    Id20To18,
    /// RTR of a standard frame, or SRR of an extended one.
    RtrStandard,
    /// IDE.
    Ide,
    /// ID.17 to ID.13.
    Id17To13,
    /// ID.12 to ID.5.
    Id12To5,
    /// ID.4 to ID.0.
    Id4To0,
    /// RTR of an extended frame.
    RtrExtended,
    /// Reserved bit 1.
    Reserved1,
    /// Reserved bit 0.
    Reserved0,
    /// DLC, the data length code.
    DataLengthCode,
    /// Data field.
    Data,
    /// CRC sequence.
    CrcSequence,
    /// CRC delimiter.
    CrcDelimiter,
    /// ACK slot, the first bit of the acknowledgement field.
    AckSlot,
    /// ACK delimiter.
    AckDelimiter,
    /// EOF, the end of frame.
    EndOfFrame,
    /// Active error flag.
    ActiveErrorFlag,
    /// Error or overload delimiter (both under this code: this project's own rule).
    Delimiter,
    /// Overload flag.
    OverloadFlag,
}

impl Segment {
    ghost use Rattle.can_levels.specs.Segments.{code_of};

    /// The number of the segment in the error code capture register, bits 4 to 0.
    pub fn code(self) -> u8
        ensures { result ≡ code_of self }
    {
        match self {
            Segment::StartOfFrame => 0x03,
            Segment::Id28To21 => 0x02,
            Segment::Id20To18 => 0x06,
            Segment::RtrStandard => 0x04,
            Segment::Ide => 0x05,
            Segment::Id17To13 => 0x07,
            Segment::Id12To5 => 0x0f,
            Segment::Id4To0 => 0x0e,
            Segment::RtrExtended => 0x0c,
            Segment::Reserved1 => 0x0d,
            Segment::Reserved0 => 0x09,
            Segment::DataLengthCode => 0x0b,
            Segment::Data => 0x0a,
            Segment::CrcSequence => 0x08,
            Segment::CrcDelimiter => 0x18,
            Segment::AckSlot => 0x19,
            Segment::AckDelimiter => 0x1b,
            Segment::EndOfFrame => 0x1a,
            Segment::ActiveErrorFlag => 0x11,
            Segment::Delimiter => 0x17,
            Segment::OverloadFlag => 0x1c,
        }
    }
}
