//! A credit that is refused.

/// A credit of so many bytes that can't be right: it is outside 3 to 13, the lengths of messages, or would lift the
/// free bytes above 64.
#[derive(Clone, Copy, Debug, PartialEq, Eq)]
pub struct BadCredit(pub u8);
