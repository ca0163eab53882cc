//! Whom a script strikes in each bit of a run.

ghost use Rattle.std.specs.Prelude.{◌≡◌, ◌≤◌, []};
ghost use Rattle.sja_bus.specs.Inside.StrikesByBit.{IsTableOf};

use super::bits::fewer;
use super::coming::{next_strike, struck_by};
use super::later_strikes::LaterStrikes;
use super::struck_nodes::StruckNodes;
use super::struck_table::StruckTable;
use can_frame::OutOfMemory;
use sja_steps::{FaultScript, Strike};
use std::alloc::Global;
use std::marker::Model;

/// How many bits a run has at most whose strikes are written down bit by bit.
const MOST_WRITTEN: u64 = 4_194_304;

/// Of each bit of a run the nodes that its script strikes: written down bit by bit, so that no bit of the bus goes over
/// all strikes, or in a run of more bits than memory is for by its strikes alone.
///
/// Contracts see it as the script, with the strikes that came later at its end, the number of bits, and from which bit
/// on it is asked whom the script strikes.
#[derive(Debug, Drop)]
pub(crate) struct StruckBits {
    script: FaultScript,
    later: LaterStrikes,
    most: u64,
    /// Of all bits, or of none where they are too many.
    table: StruckTable,
    /// From this bit up to `calm_to`, that one left out, nobody is struck, and in `calm_to` somebody is, or it is the
    /// end of the run. Nothing is known where it is greater.
    calm_from: u64,
    calm_to: u64,
}

impl Model for StruckBits {
    ghost use Rattle.std.specs.Prelude.{◌++◌};
    ghost use Rattle.sja_bus.specs.Inside.StrikesByBit.{Scripted, IsHeld};

    ghost Value = { Scripted };

    ghost view = { λ s. record { script = s.script ++ s.later.items; bits = s.most; from = s.later.from } };

    ghost invariant = { λ s. IsHeld (s.script ++ s.later.items) s.most s.table s.calm_from s.calm_to };
}

impl StruckBits {
    ghost use Rattle.std.specs.Prelude.{◌≡◌, ◌+◌, ◌^◌, ◌<◌, ◌≤◌, ◌⊎◌, ◌↔◌, ◌++◌, ℕ, [], ◌∷◌, IfOk, OnOk, OnErr};
    ghost use Rattle.sja_steps.specs.Striking.{Strikes};
    ghost use Rattle.sja_bus.specs.Inside.StrikesByBit.{IsAmong, IsUnstruck, IsStruckOrEnd};

    /// Whom this script strikes in each of so many bits.
    ///
    /// Error: [`OutOfMemory`] where memory was refused.
    pub(crate) fn new(
        alloc: Global,
        script: FaultScript,
        bits: u64,
    ) -> Result<StruckBits, OutOfMemory>
        requires { bits ≤ 2 ^ 62 }
        ensures { IfOk result (λ s. s ≡ record { script = script; bits = bits; from = 0 }) }
    {
        let written = if bits <= MOST_WRITTEN { bits } else { 0 };
        let mut table = StruckTable::new(alloc, written as usize)?;
        strike_all(&mut table, script.as_slice());
        Ok(StruckBits {
            script,
            later: LaterStrikes::new(alloc),
            most: bits,
            table,
            calm_from: 1,
            calm_to: 0,
        })
    }

    /// One strike more. Of no bit before this one it is asked any more whom the script strikes.
    ///
    /// Error: [`OutOfMemory`] where memory was refused; nothing changed.
    #[inline(always)]
    pub(crate) fn strike(&mut self, strike: Strike, from: u64) -> Result<(), OutOfMemory>
        requires on { self.old.from ≤ from }
        requires counted { from ≤ 2 ^ 62 }
        ensures struck { OnOk result (self.new.script ≡ self.old.script ++ strike ∷ []) }
        ensures bits { OnOk result (self.new.bits ≡ self.old.bits) }
        ensures from { OnOk result (self.new.from ≤ from) }
        ensures kept { OnErr result (self.new ≡ self.old) }
    {
        self.later.push(strike, from)?;
        self.table.strike(&strike);
        if strike.bit <= self.calm_to {
            self.calm_from = 1;
            self.calm_to = 0;
        }
        Ok(())
    }

    /// The nodes that are struck in this bit.
    #[inline(always)]
    pub(crate) fn at(&self, bit: u64) -> StruckNodes
        requires within { bit < self.now.bits }
        requires on { self.now.from ≤ bit }
        ensures { (node : ℕ) → node < 8 → IsAmong node result ↔ Strikes self.now.script bit node }
    {
        if self.most <= MOST_WRITTEN {
            return self.table.at(bit as usize);
        }
        if bit >= self.calm_from && bit < self.calm_to {
            return StruckNodes::none();
        }
        let mut nodes = StruckNodes::none();
        struck_by(self.script.as_slice(), bit, &mut nodes);
        self.later.strike_in(bit, &mut nodes);
        nodes
    }

    /// How many bits, from this one on and at most `most`, strike no node.
    pub(crate) fn quiet_for(&mut self, from: u64, most: u32) -> u32
        requires on { self.old.from ≤ from }
        requires within { from + most ≤ self.old.bits }
        ensures same { self.new ≡ self.old }
        ensures most { result ≤ most }
        ensures quiet { IsUnstruck self.old.script from (from + result) }
        ensures longest { (result ≡ most)
            ⊎ ((node : ℕ) × (node < 8) × Strikes self.old.script (from + result) node) }
    {
        let next = self.next_from(from);
        fewer(most, next - from)
    }

    /// The first bit from this one on in which a node is struck, or the end of the run. It is kept for the next call.
    fn next_from(&mut self, from: u64) -> u64
        requires asked { self.old.from ≤ from }
        requires before { from ≤ self.old.bits }
        ensures same { self.new ≡ self.old }
        ensures on { from ≤ result }
        ensures within { result ≤ self.old.bits }
        ensures quiet { IsUnstruck self.old.script from result }
        ensures stop { IsStruckOrEnd self.old.script self.old.bits result }
    {
        if from >= self.calm_from && from <= self.calm_to {
            return self.calm_to;
        }
        let next = self.next_struck(from);
        self.calm_from = from;
        self.calm_to = next;
        next
    }

    /// The same, looked for.
    fn next_struck(&self, from: u64) -> u64
        requires asked { self.now.from ≤ from }
        requires before { from ≤ self.now.bits }
        ensures on { from ≤ result }
        ensures within { result ≤ self.now.bits }
        ensures quiet { IsUnstruck self.now.script from result }
        ensures stop { IsStruckOrEnd self.now.script self.now.bits result }
    {
        if self.most <= MOST_WRITTEN {
            return self.table.next_struck(from as usize) as u64;
        }
        let first = next_strike(self.script.as_slice(), from, self.most);
        self.later.next(from, first)
    }
}

/// Marks in each bit the nodes that these strikes hit.
fn strike_all(table: &mut StruckTable, script: &[Strike])
    requires { IsTableOf [] table.old }
    ensures struck { IsTableOf script.now table.new }
    ensures bits { table.new.bits ≡ table.old.bits }
{
    for strike in script {
        table.strike(strike);
    }
}
