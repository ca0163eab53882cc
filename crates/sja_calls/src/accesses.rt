//! The accesses of a session of C.

ghost use Rattle.std.specs.Prelude.{◌≡◌, ◌≤◌, IfOk, IfErr, OnOk, OnErr, List};
ghost use Rattle.sja_calls.specs.Calls.{IsReadFault, IsWriteFault};
ghost use Rattle.sja_driver.specs.StepRuns.{StepRun};
ghost use Rattle.sja_session.specs.ByAddress.{MayWrite, Reads, Writes};
ghost use Rattle.sja_session.specs.Sessions.{IsAt};
ghost use Rattle.sja_session.specs.Stepping.{MayStep};

use super::call_fault::CallFault;
use super::handle::Handle;
use super::numbers::node_in;
use super::state::State;
use sja_session::{Session, StepFault};

impl Handle {
    ghost use Rattle.std.specs.Prelude.{◌≡◌, IfOk, IfErr, OnOk, OnErr};
    ghost use Rattle.sja_calls.specs.Calls.{IsRefusal, ReadsOf, IsReadFault, WritesOf, IsWriteFault};

    /// Reads an address of a node, counted from 0, now.
    ///
    /// Errors, the first that holds, and nothing changed: [`CallFault::Ended`]; [`CallFault::NoAddress`];
    /// [`CallFault::NoNode`]; [`CallFault::StepsUsed`]; [`CallFault::TurnsUsed`].
    pub fn read(&mut self, node: u32, address: u32) -> Result<u8, CallFault>
        ensures reads { IfOk result (λ value. ReadsOf self.old.state self.new.state node address value) }
        ensures err { IfErr result (IsRefusal self.old.state (IsReadFault node address)) }
        ensures kept { OnErr result (self.new ≡ self.old) }
    {
        match &mut self.state {
            State::Going(session) => read_by(session, node, address),
            State::Ended(_, _) => Err(CallFault::Ended),
            State::Lost => Err(CallFault::Ended),
        }
    }

    /// Writes a byte to an address of a node, counted from 0, now.
    ///
    /// Errors, the first that holds, and nothing changed: [`CallFault::Ended`]; [`CallFault::NoAddress`];
    /// [`CallFault::NoByte`]; [`CallFault::NoNode`]; [`CallFault::StepsUsed`]; [`CallFault::TurnsUsed`].
    pub fn write(&mut self, node: u32, address: u32, value: u32) -> Result<(), CallFault>
        ensures writes { OnOk result (WritesOf self.old.state self.new.state node address value) }
        ensures err { IfErr result (IsRefusal self.old.state (IsWriteFault node address value)) }
        ensures kept { OnErr result (self.new ≡ self.old) }
    {
        match &mut self.state {
            State::Going(session) => write_by(session, node, address, value),
            State::Ended(_, _) => Err(CallFault::Ended),
            State::Lost => Err(CallFault::Ended),
        }
    }
}

/// Reads an address of a node.
fn read_by(session: &mut Session, node: u32, address: u32) -> Result<u8, CallFault>
    ensures reads { IfOk result (λ value. (step_runs : List (List StepRun)) → IsAt session.old step_runs →
        Reads session.old session.new node address value step_runs) }
    ensures may { OnOk result ((address ≤ 255) × MayStep session.old node) }
    ensures err { IfErr result (IsReadFault node address session.old) }
    ensures kept { OnErr result (session.new ≡ session.old) }
{
    let Ok(address) = u8::try_from(address) else {
        return Err(CallFault::NoAddress);
    };
    let Some(node) = node_in(session, node) else {
        return Err(CallFault::NoNode);
    };
    match session.read(node, address) {
        Ok(value) => Ok(value),
        Err(StepFault::NoNode) => Err(CallFault::NoNode),
        Err(StepFault::StepsUsed) => Err(CallFault::StepsUsed),
        Err(StepFault::TurnsUsed) => Err(CallFault::TurnsUsed),
    }
}

/// Writes a byte to an address of a node.
fn write_by(session: &mut Session, node: u32, address: u32, value: u32) -> Result<(), CallFault>
    ensures writes { OnOk result ((step_runs : List (List StepRun)) → IsAt session.old step_runs →
        MayWrite session.old node address value step_runs
        × Writes session.old session.new node address value step_runs) }
    ensures may { OnOk result ((address ≤ 255) × (value ≤ 255)) }
    ensures err { IfErr result (IsWriteFault node address value session.old) }
    ensures kept { OnErr result (session.new ≡ session.old) }
{
    let Ok(address) = u8::try_from(address) else {
        return Err(CallFault::NoAddress);
    };
    let Ok(value) = u8::try_from(value) else {
        return Err(CallFault::NoByte);
    };
    let Some(node) = node_in(session, node) else {
        return Err(CallFault::NoNode);
    };
    match session.write(node, address, value) {
        Ok(()) => Ok(()),
        Err(StepFault::NoNode) => Err(CallFault::NoNode),
        Err(StepFault::StepsUsed) => Err(CallFault::StepsUsed),
        Err(StepFault::TurnsUsed) => Err(CallFault::TurnsUsed),
    }
}
