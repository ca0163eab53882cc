//! Why no bit is run up to a place.

use thiserror::Error;

/// Why a session runs no bit up to a place (this project's own rule). The first one that holds is told, and nothing
/// changed.
#[derive(Clone, Copy, Debug, PartialEq, Eq, Error)]
pub enum PlaceRefusal {
    /// There is no such node.
    #[error("no such node")]
    NoNode,
    /// As many turns were taken as there is room for, and the last one isn't of the bus.
    #[error("all turns are used")]
    TurnsUsed,
}
