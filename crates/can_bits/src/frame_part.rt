//! The part of a line that a reader has come to.

/// The part of a line that the next level belongs to, for a reader of one level at a time (Bosch CAN 2.0 part A section
/// 5: bit stuffing up to the CRC sequence, and fields of fixed form after it).
#[derive(Clone, Copy, Debug)]
pub(crate) enum FramePart {
    /// SOF to the CRC sequence, with stuff bits.
    Stuffed,
    /// CRC delimiter to EOF, of which so many levels have come.
    FixedForm(u8),
}
