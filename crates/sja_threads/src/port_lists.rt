//! [`PortLists`]: the lists of what comes at a port.

ghost use Rattle.std.specs.Prelude.{◌≡◌, []};

use super::halves::both_halves;
use super::kept_half::KeptHalf;
use super::known_half::KnownHalf;
use sja_thread_promises::{PortAct, PortUpdate};

/// The lists of what comes at the port of a node, which are empty (this project's own rule): both halves of the list of
/// what it is told, and the port's half of that of its driver's acts.
#[derive(Drop)]
pub struct PortLists {
    pub(crate) node: u8,
    pub(crate) turns: KeptHalf<PortUpdate>,
    pub(crate) told: KnownHalf<PortUpdate>,
    pub(crate) acts: KeptHalf<PortAct>,
    ghost same: { turns.name ≡ told.name },
    ghost no_turns: { turns.list ≡ [] },
    ghost none_told: { told.list ≡ [] },
    ghost no_acts: { acts.list ≡ [] },
}

impl PortLists {
    /// Those of a node, and its driver's half of the list of acts.
    pub fn new(node: u8) -> (PortLists, KnownHalf<PortAct>)
        ensures node { result.0.node ≡ node }
        ensures same { result.0.acts.name ≡ result.1.name }
        ensures none { result.1.list ≡ [] }
    {
        let (turns, told) = both_halves::<PortUpdate>();
        let (acts, done) = both_halves::<PortAct>();
        let lists = PortLists {
            node,
            turns,
            told,
            acts,
        };
        (lists, done)
    }
}
