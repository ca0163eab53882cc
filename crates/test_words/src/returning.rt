//! Links that give one item back.

use sja_journal::{Down, Up};
use sja_link::{BusEnd, DequeLinks, DriverEnd};

/// The links of a node, of two queues, that give one of the items back that are put or given, once.
#[derive(Drop)]
pub struct Returning {
    pub links: DequeLinks,
    /// How many items are taken before that one; nothing once it was given back.
    pub left: Option<u32>,
}

impl Returning {
    /// Whether the next item is to be given back.
    fn is_due(&mut self) -> bool {
        let left = self.left;
        self.left = match left {
            Some(0) | None => None,
            Some(left) => Some(left - 1),
        };
        left == Some(0)
    }
}

impl BusEnd for Returning {
    ghost use Rattle.std.specs.Prelude.{◌≡◌, ⊤, [], refl};
    ghost use Rattle.std.proofs.Common.{◌∙◌};
    ghost use Rattle.sja_link.specs.Deques.{Lies, AreAlike, up_on};

    ghost node = { λ s. s.links.node };

    ghost links = { λ s. s.links.starts };

    ghost stands = { λ s a l. Lies s.links a l };

    ghost same = { λ a b. AreAlike a.links b.links };

    ghost full = { λ s a. ⊤ };

    ghost dry = { λ s a. up_on s.links a ≡ [] };

    fn node(&self) -> u8 {
        BusEnd::node(&self.links)
    }

    fn links(&self) -> u64 {
        self.links.links()
    }

    fn put(&mut self, activation: u64, item: Down) -> Result<(), Down> {
        if self.is_due() {
            return Err(item);
        }
        self.links.put(activation, item)
    }

    fn take(&mut self, activation: u64) -> Option<Up> {
        self.links.take(activation)
    }

    ghost same_refl = { λ e. (refl, refl) };

    ghost same_trans = { λ a b c p q. (q.0 ∙ p.0, q.1 ∙ p.1) };

    ghost same_node = { λ a b p. p.0 };

    ghost same_links = { λ a b p. p.1 };
}

impl DriverEnd for Returning {
    ghost use Rattle.std.specs.Prelude.{◌≡◌, ⊤, [], refl};
    ghost use Rattle.std.proofs.Common.{◌∙◌};
    ghost use Rattle.sja_link.specs.Deques.{Lies, AreAlike, IsDryDown};

    ghost node = { λ s. s.links.node };

    ghost stands = { λ s a l. Lies s.links a l };

    ghost same = { λ a b. AreAlike a.links b.links };

    ghost full = { λ s a. ⊤ };

    ghost dry = { λ s a. IsDryDown s.links a };

    fn node(&self) -> u8 {
        DriverEnd::node(&self.links)
    }

    fn get(&mut self, activation: u64) -> Option<Down> {
        self.links.get(activation)
    }

    fn give(&mut self, activation: u64, item: Up) -> Result<(), Up> {
        if self.is_due() {
            return Err(item);
        }
        self.links.give(activation, item)
    }

    ghost same_refl = { λ e. (refl, refl) };

    ghost same_trans = { λ a b c p q. (q.0 ∙ p.0, q.1 ∙ p.1) };

    ghost same_node = { λ a b p. p.0 };
}
