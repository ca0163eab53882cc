//! The number of a link.

/// Which link it is (this project's own rule): one for each activation of each node.
#[derive(Clone, Copy, Debug, PartialEq, Eq)]
pub struct LinkId {
    /// The number of the node, counted from 0.
    pub node: u8,
    /// The number of the activation, counted from 1: the time from one start of the controller to its stop.
    pub activation: u64,
}
