//! Why a step isn't tried.

use thiserror::Error;

/// Why a session doesn't try a step (this project's own rule). The first one that holds is told, and nothing changed.
#[derive(Clone, Copy, Debug, PartialEq, Eq, Error)]
pub enum StepFault {
    /// There is no such node.
    #[error("no such node")]
    NoNode,
    /// As many steps of the node are done as there is room for.
    #[error("all steps of the node are used")]
    StepsUsed,
    /// As many turns were taken as there is room for, and the last one isn't of this node.
    #[error("all turns are used")]
    TurnsUsed,
}
