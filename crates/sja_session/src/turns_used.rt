//! Why no bit is run.

use thiserror::Error;

/// A bit is to be run, as many turns were taken as there is room for, and the last one isn't of the bus (this
/// project's own rule).
#[derive(Clone, Copy, Debug, PartialEq, Eq, Error)]
#[error("all turns are used")]
pub struct TurnsUsed;
