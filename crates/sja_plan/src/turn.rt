//! The turns of a serial run.

/// What happens in one turn of a serial run (this project's own rule). The last three are of version 3 alone.
#[derive(Clone, Copy, Debug)]
pub enum Turn {
    /// The bus runs this many bits.
    Bus(u32),
    /// The bus runs until every started controller is at rest.
    Rest,
    /// The driver of this node, counted from 0, does so many steps.
    Node(u8, u32),
    /// The driver of this node, counted from 0, does all that it can: up to its last step, or to one that has to wait.
    All(u8),
    /// The bus runs until the interrupt line of this node, counted from 0, is active, this many bits at most.
    Irq(u8, u32),
    /// The drivers go by themselves. Each, in the order of the nodes, does all that it can; then bits run up to the
    /// first one after which a driver can go on. Once all have done their last step, the bus runs until every started
    /// controller is at rest.
    Go,
}
