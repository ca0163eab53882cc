//! The error counters of a node.

use super::state::State;

/// A node with a counter of this or more is error passive (Bosch CAN 2.0 part A section 7).
pub const ERROR_PASSIVE: u16 = 128;
/// A node with a transmit error counter of this or more is bus-off (Bosch CAN 2.0 part A section 7).
pub const BUS_OFF: u16 = 256;

/// The error counters of a node (Bosch CAN 2.0 part A section 7, fault confinement).
#[derive(Clone, Copy, Debug, PartialEq, Eq)]
pub struct Counters {
    /// The transmit error counter, TEC.
    pub tec: u16,
    /// The receive error counter, REC, at most 255.
    pub rec: u8,
    /// Bus-off stands.
    pub off: bool,
}

impl Counters {
    ghost use Rattle.std.specs.Prelude.{◌≡◌, false};
    ghost use Rattle.can_node_rules.specs.Outcomes.{state_of};

    /// Both at 0.
    pub fn zero() -> Counters
        ensures { result ≡ record { tec = 0; rec = 0; off = false } }
    {
        Counters {
            tec: 0,
            rec: 0,
            off: false,
        }
    }

    /// How far the node is confined: bus-off where it stands, else error passive where a counter is at least 128, else
    /// error active.
    pub fn state(&self) -> State
        ensures { result ≡ state_of self.now }
    {
        if self.off {
            State::BusOff
        } else if self.tec >= ERROR_PASSIVE || u16::from(self.rec) >= ERROR_PASSIVE {
            State::Passive
        } else {
            State::Active
        }
    }
}
