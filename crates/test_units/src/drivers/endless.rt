//! A lawless end: each of its links shows messages without end.

use can_frame::Message;
use sja_journal::{Down, Up};
use sja_link::DriverEnd;

/// An end that shows a message at each get, and takes whatever is given.
#[derive(Debug, Drop)]
pub struct Endless {
    pub node: u8,
}

impl DriverEnd for Endless {
    ghost use Rattle.std.specs.Prelude.{◌≡◌, ⊤, refl};
    ghost use Rattle.std.proofs.Common.{◌∙◌};

    ghost node = { λ e. e.node };

    ghost stands = { λ e a l. ⊤ };

    ghost same = { λ a b. b.node ≡ a.node };

    ghost full = { λ e a. ⊥ };

    ghost dry = { λ e a. ⊥ };

    fn node(&self) -> u8 {
        self.node
    }

    fn get(&mut self, _activation: u64) -> Option<Down> {
        Some(Down::Message(Message::default()))
    }

    fn give(&mut self, _activation: u64, _item: Up) -> Result<(), Up> {
        Ok(())
    }

    ghost same_refl = { λ e. refl };

    ghost same_trans = { λ a b c p q. q ∙ p };

    ghost same_node = { λ a b p. p };
}
