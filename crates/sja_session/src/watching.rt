//! The bits of a session until an interrupt line rises.

ghost use Rattle.std.specs.Prelude.{◌≡◌, ◌<◌, ℕ, true, false, IfSome, IfNone};
ghost use Rattle.sja_session.specs.Inside.Risen.{risen};

use super::session::Session;
use super::turns::note;
use super::turns_used::TurnsUsed;
use super::watch_outcome::WatchOutcome;
use sja_plan::Turn;

impl Session {
    ghost use Rattle.std.specs.Prelude.{◌≡◌, ◌≤◌, ◌<◌, ℕ, true, false, List, length, slice_index_or, IfOk, OnOk, OnErr};
    ghost use Rattle.sja_driver.specs.StepRuns.{StepRun};
    ghost use Rattle.sja_session.specs.Lines.{IsStill, line_at};
    ghost use Rattle.sja_session.specs.Running.{MayRun, LacksBusTurn};
    ghost use Rattle.sja_session.specs.Sessions.{IsAt};
    ghost use Rattle.sja_session.specs.Watching.{Watches};
    ghost use Rattle.sja_session.specs.Inside.UntilTold.{RunsUntilTold};

    /// Runs so many bits, or as many as are left, or up to the first bit in which the interrupt line of a
    /// watched node rises: it wasn't active before the bit, and is after it. A place of `watched` is a node, counted
    /// from 0. It says how many were run, and whose line rose.
    ///
    /// Error: that of [`bits`](Session::bits). Nothing changed.
    pub fn watch(&mut self, count: u32, watched: [bool; 8]) -> Result<WatchOutcome, TurnsUsed>
        ensures watches { IfOk result (λ w. (step_runs : List (List StepRun)) → IsAt self.old step_runs →
            Watches self.old self.new count watched w.bits w.rose step_runs) }
        ensures may { OnOk result (MayRun self.old count) }
        ensures err { OnErr result (LacksBusTurn self.old count) }
        ensures kept { OnErr result (self.new ≡ self.old) }
    {
        if self.lacks_bus_turn(count) {
            return Err(TurnsUsed);
        }
        self.plan.limits();
        let mut before = self.looks(&watched);
        let mut bits = 0;
        while bits < count && self.run.bits() < self.bits {
            bits += self.run_until_told(count - bits);
            let now = self.looks(&watched);
            if let Some(node) = first_risen(&watched, &before, &now) {
                return Ok(WatchOutcome {
                    bits,
                    rose: Some(node),
                });
            }
            before = now;
        }
        Ok(WatchOutcome { bits, rose: None })
    }

    /// Runs bits up to the first in which a port is told its turn, at most so many. It says how many. In none of the
    /// others a line changes, since neither a port nor what has come for its driver does.
    fn run_until_told(&mut self, count: u32) -> u32
        requires may { MayRun self.old 1 }
        requires some { 1 ≤ count }
        requires left { self.old.run.bits < self.old.plan.bits }
        ensures most { result ≤ count }
        ensures ran { (step_runs : List (List StepRun)) → IsAt self.old step_runs →
            RunsUntilTold self.old self.new result step_runs }
        ensures may { MayRun self.new 1 }
    {
        let noted = !self.is_endless();
        let run = self.run.bits_until_told(count);
        note(&mut self.turns, noted, Turn::Bus(run));
        run
    }

    /// Which interrupt lines of watched nodes are active, a place for each node that there may be. Of the nodes that
    /// are there each that is watched is looked at.
    fn looks(&mut self, watched: &[bool; 8]) -> [bool; 8]
        ensures still { (step_runs : List (List StepRun)) → IsAt self.old step_runs →
            IsStill self.old self.new step_runs }
        ensures lines { (step_runs : List (List StepRun)) → IsAt self.old step_runs → (k : ℕ) →
            k < length self.old.plan.nodes → k < 8 → slice_index_or watched.now k false ≡ true →
            slice_index_or result k false ≡ line_at self.old step_runs k }
        ensures none { (k : ℕ) → length self.old.plan.nodes ≤ k → slice_index_or result k false ≡ false }
    {
        let mut lines = [false; 8];
        let nodes = self.nodes() as u8;
        for node in 0..nodes {
            let place = usize::from(node);
            if watched[place] {
                if let Some(line) = self.irq(node) {
                    lines[place] = line;
                }
            }
        }
        lines
    }
}

/// The first place that is watched, and was false and is true.
fn first_risen(watched: &[bool; 8], before: &[bool; 8], now: &[bool; 8]) -> Option<u8>
    ensures some { IfSome result (λ node. (risen watched.now before.now now.now node ≡ true) × (node < 8)) }
    ensures first { IfSome result (λ node. (k : ℕ) → k < node → risen watched.now before.now now.now k ≡ false) }
    ensures none { IfNone result ((k : ℕ) → k < 8 → risen watched.now before.now now.now k ≡ false) }
{
    for node in 0..8u8 {
        let place = usize::from(node);
        if watched[place] && (!before[place] && now[place]) {
            return Some(node);
        }
    }
    None
}
