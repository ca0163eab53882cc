//! The nodes that are struck in one bit.

/// Which of the nodes 0 to 7 are struck in one bit.
#[derive(Clone, Copy, Debug, PartialEq, Eq)]
pub(crate) struct StruckNodes {
    mask: u8,
}

impl StruckNodes {
    ghost use Rattle.std.specs.Prelude.{◌≡◌, ◌⊎◌, ◌↔◌, ◌<◌, ℕ, IsTrue, true, false};
    ghost use Rattle.sja_bus.specs.Inside.StrikesByBit.{IsAmong};

    /// No node.
    pub(crate) fn none() -> StruckNodes
        ensures { (node : ℕ) → IsAmong node result → ⊥ }
    {
        StruckNodes { mask: 0 }
    }

    /// Whether no node is struck.
    #[inline(always)]
    pub(crate) fn is_empty(&self) -> bool
        ensures none { result ≡ true → (node : ℕ) → IsAmong node self.now → ⊥ }
        ensures some { result ≡ false → (node : ℕ) × (node < 8) × IsAmong node self.now }
    {
        self.mask == 0
    }

    /// Whether this node is struck.
    #[inline(always)]
    pub(crate) fn has(&self, node: usize) -> bool
        requires { node < 8 }
        ensures { IsTrue result ↔ IsAmong node self.now }
    {
        self.mask >> node & 1 == 1
    }

    /// This node is struck too.
    pub(crate) fn add(&mut self, node: usize)
        requires { node < 8 }
        ensures { (other : ℕ) → IsAmong other self.new ↔ (IsAmong other self.old ⊎ (other ≡ node)) }
    {
        self.mask |= 1 << node;
    }
}
