//! Where the bus is with the activations of a node.

use can_frame::Filter;

/// Where the bus is with the activations of a node (this project's own rule).
#[derive(Clone, Copy, Debug, PartialEq, Eq)]
pub(crate) enum Activity {
    /// None runs: before the first start, and after each stop.
    Between,
    /// One runs, with this filter.
    Running(Filter),
    /// The node went bus-off in it.
    Off,
    /// The node went bus-off in it, and one request was dropped since.
    OffAndAsked,
}
