//! What leads to an overload frame.

/// The conditions that lead to an overload frame, which begins with an overload flag (Bosch CAN 2.0 part A section
/// 3.1.4; the last bit of a delimiter and of EOF are ISO 11898-1's). A receiver's own need for a delay isn't modelled.
#[derive(Clone, Copy, Debug)]
pub(crate) enum OverloadCondition {
    /// A dominant level at the first or second bit of intermission.
    Intermission,
    /// A dominant level at the eighth bit of an error delimiter or overload delimiter.
    LastDelimiterBit,
    /// A dominant level at the seventh bit of EOF of a received frame.
    LastEofBit,
}
