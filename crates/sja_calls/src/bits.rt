//! The bits of a session of C, its interrupt lines and its strikes.

ghost use Rattle.std.specs.Prelude.{◌≡◌, ◌<◌, IfOk, IfErr, OnOk, OnErr, List, length};
ghost use Rattle.sja_calls.specs.Calls.{watches, RunsBy, IsRunFault, IsLookFault, IsStrikeFault};
ghost use Rattle.sja_driver.specs.StepRuns.{StepRun};
ghost use Rattle.sja_session.specs.Lines.{Looks};
ghost use Rattle.sja_session.specs.Running.{MayRun};
ghost use Rattle.sja_session.specs.Sessions.{IsAt};
ghost use Rattle.sja_session.specs.Striking.{IsStruck, MayStrike};

use super::call_fault::CallFault;
use super::handle::Handle;
use super::numbers::{node_in, watched_by};
use super::state::State;
use sja_session::{Session, StrikeFault, WatchOutcome};

impl Handle {
    ghost use Rattle.std.specs.Prelude.{◌≡◌, IfOk, IfErr, OnOk, OnErr};
    ghost use Rattle.sja_calls.specs.Calls.{IsRefusal, RunsOf, IsRunFault, LooksOf, IsLookFault};
    ghost use Rattle.sja_calls.specs.Calls.{LinesOf, IsLinesFault, StrikesOf, IsStrikeFault, IsNowOf, IsNowFault};

    /// Runs so many bits, or as many as are left, or up to the first bit in which the interrupt line of a watched node
    /// rises: node K is watched where bit K of `watch` is 1. It says how many, and whose line rose.
    ///
    /// Errors, the first that holds, and nothing changed: [`CallFault::Ended`]; [`CallFault::TurnsUsed`].
    pub fn bits(&mut self, count: u32, watch: u32) -> Result<WatchOutcome, CallFault>
        ensures runs { IfOk result (λ w. RunsOf self.old.state self.new.state count watch w.bits w.rose) }
        ensures err { IfErr result (IsRefusal self.old.state (IsRunFault count)) }
        ensures kept { OnErr result (self.new ≡ self.old) }
    {
        match &mut self.state {
            State::Going(session) => bits_by(session, count, watch),
            State::Ended(_, _) => Err(CallFault::Ended),
            State::Lost => Err(CallFault::Ended),
        }
    }

    /// Whether the interrupt line of a node, counted from 0, is active. It clears nothing.
    ///
    /// Errors, the first that holds, and nothing changed: [`CallFault::Ended`]; [`CallFault::NoNode`].
    pub fn irq(&mut self, node: u32) -> Result<bool, CallFault>
        ensures looks { IfOk result (λ line. LooksOf self.old.state self.new.state node line) }
        ensures err { IfErr result (IsRefusal self.old.state (IsLookFault node)) }
        ensures kept { OnErr result (self.new ≡ self.old) }
    {
        match &mut self.state {
            State::Going(session) => irq_by(session, node),
            State::Ended(_, _) => Err(CallFault::Ended),
            State::Lost => Err(CallFault::Ended),
        }
    }

    /// Which interrupt lines are active: bit K is 1 where node K is there and its line is active. It clears nothing.
    ///
    /// Error: [`CallFault::Ended`]; nothing changed.
    pub fn lines(&mut self) -> Result<u8, CallFault>
        ensures lines { IfOk result (LinesOf self.old.state self.new.state) }
        ensures err { IfErr result (IsRefusal self.old.state IsLinesFault) }
        ensures kept { OnErr result (self.new ≡ self.old) }
    {
        match &mut self.state {
            State::Going(session) => Ok(session.lines()),
            State::Ended(_, _) => Err(CallFault::Ended),
            State::Lost => Err(CallFault::Ended),
        }
    }

    /// Has a node, counted from 0, see the other level in a bit that hasn't run, counted from 0.
    ///
    /// Errors, the first that holds, and nothing changed: [`CallFault::Ended`]; [`CallFault::NoNode`];
    /// [`CallFault::NoBit`]; [`CallFault::Past`]; [`CallFault::StrikesUsed`]; [`CallFault::Memory`].
    pub fn strike(&mut self, node: u32, bit: u64) -> Result<(), CallFault>
        ensures strikes { OnOk result (StrikesOf self.old.state self.new.state node bit) }
        ensures err { IfErr result (IsRefusal self.old.state (IsStrikeFault node bit)) }
        ensures kept { OnErr result (self.new ≡ self.old) }
    {
        match &mut self.state {
            State::Going(session) => strike_by(session, node, bit),
            State::Ended(_, _) => Err(CallFault::Ended),
            State::Lost => Err(CallFault::Ended),
        }
    }

    /// How many bits were run. Its contract has the headline too, as it holds at this moment, with an end or without.
    ///
    /// Error: [`CallFault::Ended`].
    pub fn now(&self) -> Result<u64, CallFault>
        ensures now { IfOk result (IsNowOf self.now.state) }
        ensures err { IfErr result (IsRefusal self.now.state IsNowFault) }
    {
        match &self.state {
            State::Going(session) => {
                session.accounts();
                Ok(session.now())
            }
            State::Ended(_, _) => Err(CallFault::Ended),
            State::Lost => Err(CallFault::Ended),
        }
    }
}

/// Runs bits, up to the rise of a watched line where one is watched.
fn bits_by(session: &mut Session, count: u32, watch: u32) -> Result<WatchOutcome, CallFault>
    ensures runs { IfOk result (λ w. (step_runs : List (List StepRun)) → IsAt session.old step_runs →
        RunsBy (watches watch) session.old session.new count watch w.bits w.rose step_runs) }
    ensures may { OnOk result (MayRun session.old count) }
    ensures err { IfErr result (IsRunFault count session.old) }
    ensures kept { OnErr result (session.new ≡ session.old) }
{
    if watch % 256 != 0 {
        return match session.watch(count, watched_by(watch)) {
            Ok(watched) => Ok(watched),
            Err(_) => Err(CallFault::TurnsUsed),
        };
    }
    match session.bits(count) {
        Ok(bits) => Ok(WatchOutcome { bits, rose: None }),
        Err(_) => Err(CallFault::TurnsUsed),
    }
}

/// Looks at the interrupt line of a node.
fn irq_by(session: &mut Session, node: u32) -> Result<bool, CallFault>
    ensures looks { IfOk result (λ line. (step_runs : List (List StepRun)) → IsAt session.old step_runs →
        Looks session.old session.new node line step_runs) }
    ensures may { OnOk result (node < length session.old.plan.nodes) }
    ensures err { IfErr result (IsLookFault node session.old) }
    ensures kept { OnErr result (session.new ≡ session.old) }
{
    let Some(node) = node_in(session, node) else {
        return Err(CallFault::NoNode);
    };
    match session.irq(node) {
        Some(line) => Ok(line),
        None => Err(CallFault::NoNode),
    }
}

/// Has a node see the other level in a bit.
fn strike_by(session: &mut Session, node: u32, bit: u64) -> Result<(), CallFault>
    ensures struck { OnOk result ((step_runs : List (List StepRun)) → IsAt session.old step_runs →
        IsStruck session.old session.new node bit step_runs) }
    ensures may { OnOk result (MayStrike session.old node bit) }
    ensures err { IfErr result (IsStrikeFault node bit session.old) }
    ensures kept { OnErr result (session.new ≡ session.old) }
{
    let Some(node) = node_in(session, node) else {
        return Err(CallFault::NoNode);
    };
    match session.strike(node, bit) {
        Ok(()) => Ok(()),
        Err(StrikeFault::NoNode) => Err(CallFault::NoNode),
        Err(StrikeFault::NoBit) => Err(CallFault::NoBit),
        Err(StrikeFault::Past) => Err(CallFault::Past),
        Err(StrikeFault::StrikesUsed) => Err(CallFault::StrikesUsed),
        Err(StrikeFault::Memory) => Err(CallFault::Memory),
    }
}
