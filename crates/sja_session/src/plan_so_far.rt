//! The plan that a session wrote, as far as it has come.

ghost use Rattle.std.specs.Prelude.{◌≡◌, All, map, IfOk};
ghost use Rattle.sja_journal.specs.BoundedHistories.{KeepsAll};

use super::no_plan::NoPlan;
use super::session::Session;
use can_frame::OutOfMemory;
use sja_journal::BoundedHistory;
use sja_plan::{Plan, Turn};
use sja_steps::{Step, Strike};
use std::alloc::Global;

impl Session {
    ghost use Rattle.std.specs.Prelude.{◌≡◌, IfOk, IfErr, OnOk};
    ghost use Rattle.sja_session.specs.Ending.{IsNoPlan};
    ghost use Rattle.sja_session.specs.Sessions.{HasEnd, written};

    /// The plan so far: the steps that were done, the turns that were taken, and the strikes.
    ///
    /// Errors: [`NoPlan::Endless`] where the session is without an end; [`NoPlan::Memory`] where memory was refused.
    pub fn plan(&self, alloc: Global) -> Result<Plan, NoPlan>
        ensures plan { IfOk result (λ p. p ≡ written self.now) }
        ensures end { OnOk result (HasEnd self.now) }
        ensures err { IfErr result (IsNoPlan self.now) }
    {
        if self.is_endless() {
            return Err(NoPlan::Endless);
        }
        self.plan.limits();
        let nodes = copied_steps(alloc, self.steps.as_slice())?;
        let turns = copied_turns(alloc, self.turns.as_slice())?;
        let strikes = copied_strikes(alloc, self.plan.strikes())?;
        let bits = self.plan.bits();
        Ok(Plan::of(self.plan.version(), bits, nodes, turns, strikes))
    }
}

/// The same steps of each node.
///
/// Error: [`OutOfMemory`] where memory was refused.
fn copied_steps(
    alloc: Global,
    nodes: &[BoundedHistory<Step>],
) -> Result<Vec<Vec<Step>>, OutOfMemory>
    requires { All (λ steps. KeepsAll steps.room) nodes.now }
    ensures { IfOk result (λ copy. map (λ steps. steps.items) copy.items
        ≡ map (λ steps. steps.items) nodes.now) }
{
    let mut list = Vec::with_capacity(alloc, nodes.len())?;
    for steps in nodes {
        list.push_reserved(copied_list(alloc, steps.as_slice())?);
    }
    Ok(list)
}

/// The same steps.
///
/// Error: [`OutOfMemory`] where memory was refused.
fn copied_list(alloc: Global, steps: &[Step]) -> Result<Vec<Step>, OutOfMemory>
    ensures { IfOk result (λ list. list.items ≡ steps.now) }
{
    let mut list = Vec::with_capacity(alloc, steps.len())?;
    for step in steps {
        list.push_reserved(step.copy());
    }
    Ok(list)
}

/// The same turns.
///
/// Error: [`OutOfMemory`] where memory was refused.
pub fn copied_turns(alloc: Global, turns: &[Turn]) -> Result<Vec<Turn>, OutOfMemory>
    ensures { IfOk result (λ list. list.items ≡ turns.now) }
{
    let mut list = Vec::with_capacity(alloc, turns.len())?;
    for turn in turns {
        list.push_reserved(*turn);
    }
    Ok(list)
}

/// The same strikes.
///
/// Error: [`OutOfMemory`] where memory was refused.
pub fn copied_strikes(alloc: Global, strikes: &[Strike]) -> Result<Vec<Strike>, OutOfMemory>
    ensures { IfOk result (λ list. list.items ≡ strikes.now) }
{
    let mut list = Vec::with_capacity(alloc, strikes.len())?;
    for strike in strikes {
        list.push_reserved(*strike);
    }
    Ok(list)
}
