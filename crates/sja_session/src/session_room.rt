//! For how much a session reserves room.

use sja_plan::{most_steps, most_turns};

/// For how many steps of each node and how many turns a session reserves room (this project's own rule).
#[derive(Clone, Copy, Debug, PartialEq, Eq)]
pub struct SessionRoom {
    /// The steps of each node.
    pub steps: u64,
    /// The turns.
    pub turns: u64,
}

impl SessionRoom {
    ghost use Rattle.std.specs.Prelude.{◌≡◌};
    ghost use Rattle.sja_session.specs.Beginning.{endless_room, most_room};

    /// Room for as much as a plan of this version has at most: 1,000 steps of each node and 10,000 turns, or 65,535
    /// steps and 200,000 turns in version 3.
    pub fn most(version: u8) -> SessionRoom
        ensures { result ≡ most_room version }
    {
        SessionRoom {
            steps: most_steps(version) as u64,
            turns: most_turns(version) as u64,
        }
    }

    /// The room of a session without an end: for more steps of each node than can be done, 2^56. It takes no turns
    /// down.
    pub(crate) fn endless() -> SessionRoom
        ensures { result ≡ endless_room }
    {
        SessionRoom {
            steps: 1 << 56,
            turns: 0,
        }
    }
}
