//! [`PortUpdate`]: what a port is told by the bus.

use sja_regs::{BusTurn, Orders};

/// What the bus of a run in threads tells a port (this project's own rule).
#[derive(Drop)]
pub enum PortUpdate {
    /// What a bit brought.
    Turn(BusTurn),
    /// How many bits have run; and what its driver was found to order.
    Ran(u32, Orders),
    /// That no bits are left.
    Spent,
}
