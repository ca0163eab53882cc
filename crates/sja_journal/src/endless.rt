//! Why a list can't be read whole.

/// A list was made for more items than it keeps ([`HISTORY_LIMIT`](super::HISTORY_LIMIT)), as those of a session
/// without an end are: what is oldest may be forgotten (this project's own rule).
#[derive(Clone, Copy, Debug, PartialEq, Eq)]
pub struct Endless;
