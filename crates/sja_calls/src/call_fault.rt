//! Why a call isn't done.

use thiserror::Error;

/// Why a call isn't done (this project's own rule). The first one that holds is told.
#[derive(Clone, Copy, Debug, PartialEq, Eq, Error)]
pub enum CallFault {
    /// The session has ended.
    #[error("the session has ended")]
    Ended,
    /// There is no such version.
    #[error("no such version")]
    Version,
    /// The number of bits isn't one that a session may have.
    #[error("no such number of bits")]
    Bits,
    /// The number of nodes isn't one from 1 to 8.
    #[error("the number of nodes isn't one from 1 to 8")]
    Nodes,
    /// The address is past 255.
    #[error("no such address")]
    NoAddress,
    /// The value is past 255.
    #[error("no byte")]
    NoByte,
    /// The number is no place's.
    #[error("no such place")]
    NoPlace,
    /// There is no such node.
    #[error("no such node")]
    NoNode,
    /// There is no such bit: the session's bits end before it.
    #[error("no such bit")]
    NoBit,
    /// The bit has run.
    #[error("the bit has run")]
    Past,
    /// Fewer steps of the node are left than the access is, of as many as a plan of its version has.
    #[error("all steps of the node are used")]
    StepsUsed,
    /// As many turns were taken as a plan has.
    #[error("all turns are used")]
    TurnsUsed,
    /// As many strikes were taken as a plan has.
    #[error("all strikes are used")]
    StrikesUsed,
    /// The bytes are no plan, or its run has no place of a strike.
    #[error("no plan")]
    NoPlan,
    /// No document says the plan.
    #[error("no document says the plan")]
    NoDocument,
    /// The text needs more room: so many bytes, the NUL at its end with them.
    #[error("the text needs {0} bytes")]
    NoRoom(usize),
    /// The session is without an end.
    #[error("a session without an end has no plan and no report")]
    Endless,
    /// Memory was refused.
    #[error("out of memory")]
    Memory,
}
