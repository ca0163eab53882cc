//! All strikes of a run.

use super::strike::Strike;
use std::marker::Model;

/// The strikes of a run (this project's own rule), in any order. A node and a bit that several strikes name are struck
/// once.
///
/// Contracts see it as the list of the strikes.
#[derive(Debug, Drop)]
pub struct FaultScript {
    strikes: Vec<Strike>,
}

impl Model for FaultScript {
    ghost use Rattle.std.specs.Prelude.{List};
    ghost use Rattle.sja_steps.specs.declared.strike.Strike.{Strike};

    ghost Value = { List Strike };

    ghost view = { λ s. s.strikes.items };
}

impl FaultScript {
    ghost use Rattle.std.specs.Prelude.{◌≡◌, ◌↔◌, IsTrue};
    ghost use Rattle.sja_steps.specs.Striking.{Strikes};

    /// The script of these strikes.
    pub fn of(strikes: Vec<Strike>) -> FaultScript
        ensures { result ≡ strikes.items }
    {
        FaultScript { strikes }
    }

    /// Its strikes.
    pub fn as_slice(&self) -> &[Strike]
        ensures { result.now ≡ self.now }
    {
        self.strikes.as_slice()
    }

    /// Whether this node is struck in this bit: whether for some strike of the node and some number from 0 and below
    /// its `times` that many times `every`, added to its `bit`, is this bit. The sum isn't taken modulo 2^64.
    pub fn strikes(&self, bit: u64, node: u8) -> bool
        ensures { IsTrue result ↔ Strikes self.now bit node }
    {
        for strike in self.strikes.iter() {
            if strike.hits(bit, node) {
                return true;
            }
        }
        false
    }
}
