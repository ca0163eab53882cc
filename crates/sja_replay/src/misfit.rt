//! What ends a replay within a bit.

/// The entries behind a bit aren't those that it brings.
#[derive(Clone, Copy, Debug, PartialEq, Eq)]
pub(crate) struct Misfit;
