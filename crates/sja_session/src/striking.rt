//! Strikes that a session takes while it goes on.

ghost use Rattle.std.specs.Prelude.{◌≡◌};
ghost use Rattle.sja_plan.specs.Struck.{one_strike};

use super::session::Session;
use super::strike_fault::StrikeFault;
use sja_plan::StrikeRefusal;
use sja_steps::Strike;

impl Session {
    ghost use Rattle.std.specs.Prelude.{◌≡◌, ◌<◌, ◌≤◌, List, length, IfErr, OnOk, OnErr};
    ghost use Rattle.sja_driver.specs.StepRuns.{StepRun};
    ghost use Rattle.sja_session.specs.Sessions.{IsAt, IsEndless};
    ghost use Rattle.sja_session.specs.declared.strike_fault.StrikeFault.TheVariants.{Memory};
    ghost use Rattle.sja_session.specs.Striking.{MayStrike, IsStrikeFault, IsStruck};

    /// Has a node, counted from 0, see the other level in a bit that hasn't run, counted from 0, and writes that down
    /// as a strike of the plan. No bit is run, and nothing else changes. A bit that is struck already stays struck, and
    /// the plan has the strike twice.
    ///
    /// Errors, the first that holds, and nothing changed: [`StrikeFault::NoNode`] where there is no such node;
    /// [`StrikeFault::NoBit`] where the session's bits end before this one; [`StrikeFault::Past`] where it has run;
    /// [`StrikeFault::StrikesUsed`] where it has an end and the strikes so far strike as many bits as those of a plan
    /// of its version may; [`StrikeFault::Memory`] where memory was refused.
    #[inline(always)]
    pub fn strike(&mut self, node: u8, bit: u64) -> Result<(), StrikeFault>
        ensures struck { OnOk result ((step_runs : List (List StepRun)) → IsAt self.old step_runs →
            IsStruck self.old self.new node bit step_runs) }
        ensures may { OnOk result (MayStrike self.old node bit) }
        ensures err { IfErr result (IsStrikeFault self.old node bit) }
        ensures kept { OnErr result (self.new ≡ self.old) }
    {
        self.check_bit(node, bit)?;
        if self.is_endless() {
            return self.strike_endless(node, bit);
        }
        match self.plan.strike(node, bit) {
            Ok(()) => {}
            Err(StrikeRefusal::StrikeCount) => return Err(StrikeFault::StrikesUsed),
            Err(_) => return Err(StrikeFault::Memory),
        }
        match self.run.strike(one_strike(node, bit)) {
            Ok(()) => Ok(()),
            Err(refused) => {
                self.plan.unstrike();
                Err(StrikeFault::from(refused))
            }
        }
    }

    /// The same without an end.
    fn strike_endless(&mut self, node: u8, bit: u64) -> Result<(), StrikeFault>
        requires endless { IsEndless self.old }
        requires ahead { self.old.run.bits ≤ bit }
        ensures struck { OnOk result ((step_runs : List (List StepRun)) → IsAt self.old step_runs →
            IsStruck self.old self.new node bit step_runs) }
        ensures err { IfErr result (λ fault. fault ≡ Memory) }
        ensures kept { OnErr result (self.new ≡ self.old) }
    {
        self.plan.limits();
        if self.struck.is_full() {
            return Err(StrikeFault::Memory);
        }
        let strike = one_strike(node, bit);
        self.run.strike(strike)?;
        self.struck.push(strike);
        Ok(())
    }

    /// Whether the node is there, and the bit is one of the session's that hasn't run.
    ///
    /// Errors: as [`strike`](Session::strike) tells them, the first three.
    #[inline(always)]
    fn check_bit(&self, node: u8, bit: u64) -> Result<(), StrikeFault>
        ensures there { OnOk result (node < length self.now.plan.nodes) }
        ensures ahead { OnOk result ((bit < self.now.plan.bits) × (self.now.run.bits ≤ bit)) }
        ensures err { IfErr result (IsStrikeFault self.now node bit) }
    {
        if usize::from(node) >= self.plan.nodes() {
            return Err(StrikeFault::NoNode);
        }
        if bit >= self.bits {
            return Err(StrikeFault::NoBit);
        }
        if bit < self.run.bits() {
            return Err(StrikeFault::Past);
        }
        Ok(())
    }
}

/// The strike of a node in one bit.
fn one_strike(node: u8, bit: u64) -> Strike
    ensures { result ≡ one_strike node bit }
{
    Strike {
        node,
        bit,
        every: 1,
        times: 1,
    }
}
