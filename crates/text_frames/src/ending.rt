//! [`Ending`]: how a frame ended.

use can_levels::Segment;
use can_node_rules::Cause;

/// How a frame ended for its transmitter.
#[derive(Clone, Copy, Debug)]
pub enum Ending {
    /// It has all its bits.
    Whole,
    /// Arbitration was lost in the bit with this place code (SJA1000 data sheet, 6.4.8).
    Lost(u8),
    /// There was a fault (Bosch CAN 2.0 part A section 6).
    Broken(Cause, Segment),
    /// More bits were to come: the controller was stopped, or the run was over.
    CutOff,
}
