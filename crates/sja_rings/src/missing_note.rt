//! A link that can't be settled.

/// A ring gave no closing note, so what was left on the link isn't known.
#[derive(Clone, Copy, Debug, PartialEq, Eq)]
pub struct MissingNote;
