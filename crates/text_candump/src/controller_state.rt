//! [`ControllerState`]: the state of a controller, as Linux's CAN core has it.

use can_node_rules::Counters;

/// The error warning limit (SJA1000 data sheet, 6.4.10: 96 after reset).
const WARNING: u16 = 96;
/// A counter that is error passive (Bosch CAN 2.0 part A section 7, rule 9).
const PASSIVE: u16 = 128;

/// The state of a controller that isn't bus-off (Linux, `linux/can/netlink.h`, `enum can_state`).
#[derive(Clone, Copy, Debug)]
pub(crate) enum ControllerState {
    /// Both counters are below 96 (`CAN_STATE_ERROR_ACTIVE`).
    Active,
    /// One of them is at least 96 (`CAN_STATE_ERROR_WARNING`).
    Warning,
    /// One of them is at least 128 (`CAN_STATE_ERROR_PASSIVE`).
    Passive,
}

impl ControllerState {
    ghost use Rattle.std.specs.Prelude.{◌≡◌, nat_le};
    ghost use Rattle.text_candump.specs.ControllerStates.{reaches, state_by, new_state};

    /// That of these counters.
    pub(crate) fn of(counters: Counters) -> ControllerState
        ensures { result ≡ state_by counters }
    {
        if reaches(counters, PASSIVE) {
            ControllerState::Passive
        } else if reaches(counters, WARNING) {
            ControllerState::Warning
        } else {
            ControllerState::Active
        }
    }

    /// The state that comes after this one, if it's another one.
    pub(crate) fn changed(self, after: ControllerState) -> Option<ControllerState>
        ensures { result ≡ new_state self after }
    {
        match (self, after) {
            (ControllerState::Active, ControllerState::Active)
            | (ControllerState::Warning, ControllerState::Warning)
            | (ControllerState::Passive, ControllerState::Passive) => None,
            _ => Some(after),
        }
    }
}

ghost use Rattle.std.specs.Prelude.{◌≡◌};
ghost use Rattle.text_candump.specs.ControllerStates.{reaches};

/// Whether one of the counters is at this limit.
fn reaches(counters: Counters, limit: u16) -> bool
    ensures { result ≡ reaches limit counters }
{
    limit <= counters.tec || limit <= u16::from(counters.rec)
}
