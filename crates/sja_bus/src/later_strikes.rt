//! Strikes that came while a bus ran.

ghost use Rattle.std.specs.Prelude.{◌^◌, ◌≤◌};
ghost use Rattle.sja_bus.specs.Inside.StrikesByBit.{StrikeAlike};

use super::coming::{is_coming, next_strike, struck_by};
use super::struck_nodes::StruckNodes;
use can_frame::OutOfMemory;
use sja_journal::Dropped;
use sja_steps::Strike;
use std::alloc::Global;
use std::fmt::{self, Debug, Formatter};
use std::marker::Model;

/// Where so many strikes are kept, or twice as many as were left before, those that have passed are forgotten.
const MANY: usize = 1_024;

/// The strikes that came while a bus ran, of which those that have passed are forgotten from time to time: it has
/// memory for those that may hit a bit still, and for as many more or some.
///
/// Contracts see all of them, those forgotten too, and a bit from which on none of these hits.
#[derive(Drop)]
pub(crate) struct LaterStrikes {
    kept: Vec<Strike>,
    /// Where so many are kept, those that have passed are forgotten.
    many: usize,
    from: u64,
    /// All that came.
    came: Dropped<Strike>,
}

impl Model for LaterStrikes {
    ghost use Rattle.sja_bus.specs.Inside.StrikesByBit.{Laters, StrikeAlike};

    ghost Value = { Laters };

    ghost view = { λ l. record { items = l.came.items; from = l.from } };

    ghost invariant = { λ l. StrikeAlike l.came.items l.kept.items l.from };
}

impl LaterStrikes {
    ghost use Rattle.std.specs.Prelude.{◌≡◌, ◌^◌, ◌<◌, ◌≤◌, ◌⊎◌, ◌↔◌, ◌++◌, ℕ, [], ◌∷◌, OnOk, OnErr};
    ghost use Rattle.sja_steps.specs.Striking.{Strikes};
    ghost use Rattle.sja_bus.specs.Inside.StrikesByBit.{IsAmong, IsUnstruck};

    /// None.
    pub(crate) fn new(alloc: Global) -> LaterStrikes
        ensures { result ≡ record { items = []; from = 0 } }
    {
        LaterStrikes {
            kept: Vec::new(alloc),
            many: MANY,
            from: 0,
            came: Dropped::new(),
        }
    }

    /// One more. Of no bit before this one it is asked any more whom they strike.
    ///
    /// Error: [`OutOfMemory`] where memory was refused; nothing changed.
    #[inline(always)]
    pub(crate) fn push(&mut self, strike: Strike, from: u64) -> Result<(), OutOfMemory>
        requires on { self.old.from ≤ from }
        requires counted { from ≤ 2 ^ 62 }
        ensures items { OnOk result (self.new.items ≡ self.old.items ++ strike ∷ []) }
        ensures from { OnOk result (self.new.from ≤ from) }
        ensures kept { OnErr result (self.new ≡ self.old) }
    {
        self.kept.push(strike)?;
        self.came = self.came.and_all(&[strike]);
        if self.kept.len() >= self.many {
            forget_passed(&mut self.kept, from);
            self.many = self.kept.len().saturating_mul(2).max(MANY);
            self.from = from;
        }
        Ok(())
    }

    /// The nodes that they strike in this bit are struck too.
    pub(crate) fn strike_in(&self, bit: u64, nodes: &mut StruckNodes)
        requires on { self.now.from ≤ bit }
        requires counted { bit ≤ 2 ^ 62 }
        ensures { (node : ℕ) → node < 8 →
            IsAmong node nodes.new ↔ (IsAmong node nodes.old ⊎ Strikes self.now.items bit node) }
    {
        struck_by(self.kept.as_slice(), bit, nodes);
    }

    /// The first bit from this one on that one of them hits, or `end`, where that is earlier.
    pub(crate) fn next(&self, from: u64, end: u64) -> u64
        requires on { self.now.from ≤ from }
        requires within { from ≤ end }
        requires counted { from ≤ 2 ^ 62 }
        ensures on { from ≤ result }
        ensures within { result ≤ end }
        ensures quiet { IsUnstruck self.now.items from result }
        ensures stop { (result ≡ end) ⊎ ((node : ℕ) × (node < 8) × Strikes self.now.items result node) }
    {
        next_strike(self.kept.as_slice(), from, end)
    }
}

impl Debug for LaterStrikes {
    /// Writes those that are kept.
    fn fmt<W: fmt::Write>(&self, f: &mut Formatter<W>) -> fmt::Result {
        Debug::fmt(&self.kept, f)
    }
}

/// Takes those that hit no bit from this one on off a list.
fn forget_passed(strikes: &mut Vec<Strike>, from: u64)
    requires { from ≤ 2 ^ 62 }
    ensures { StrikeAlike strikes.old.items strikes.new.items from }
{
    strikes.retain(|strike| is_coming(strike, from));
}
