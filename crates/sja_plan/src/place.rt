//! [`Place`]: a place in a frame.

/// A place in a frame, by the names of the data sheet and the standard (SJA1000 data sheet, 6.4.8 and 6.4.9; Bosch CAN
/// 2.0 part A section 3.1.1 and part B section 3.2), and in the intermission after it. Stuff bits are counted by
/// themselves.
#[derive(Clone, Copy, Debug, PartialEq, Eq)]
pub enum Place {
    /// SOF.
    Sof,
    /// A bit of the identifier: 28 to 18, and in an extended frame to 0.
    Id(usize),
    /// SRR of an extended frame.
    Srr,
    /// RTR.
    Rtr,
    /// IDE.
    Ide,
    /// Reserved bit 1 of an extended frame.
    R1,
    /// Reserved bit 0.
    R0,
    /// A bit of the data length code: 3 to 0.
    Dlc(usize),
    /// A data byte, from 1 on, and one of its bits: 7 to 0.
    Data(usize, usize),
    /// A bit of the CRC sequence: 14 to 0.
    Crc(usize),
    /// The CRC delimiter.
    CrcDelimiter,
    /// The ACK slot.
    Ack,
    /// The ACK delimiter.
    AckDelimiter,
    /// A bit of EOF: 1 to 7.
    Eof(usize),
    /// A bit of intermission: 1 to 3.
    Intermission(usize),
    /// A stuff bit of the frame, from 1 on.
    Stuff(usize),
}
