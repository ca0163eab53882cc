//! A write in versions 1 and 2: the typed steps that do the same, one right after the other.

ghost use Rattle.std.specs.Prelude.{◌≡◌, length};
ghost use Rattle.sja_driver.specs.WriteLists.{listed, steps_in};

use super::session::Session;
use super::step_fault::StepFault;
use super::step_outcome::StepOutcome;
use sja_driver::{WriteSteps, steps_of_write};
use sja_plan::Turn;
use sja_steps::{Step, StepAnswer};

impl Session {
    ghost use Rattle.std.specs.Prelude.{◌≡◌, ◌≤◌, false, List, ◌∷◌, [], length, IfErr, OnOk};
    ghost use Rattle.sja_driver.specs.StepRuns.{StepRun, by_bytes};
    ghost use Rattle.sja_driver.specs.WriteLists.{IsPrompt, IsPromptIf, listed};
    ghost use Rattle.sja_session.specs.ByAddress.{IsAccessFault, MayDo};
    ghost use Rattle.sja_session.specs.Inside.Accessing.{AnswersWrite, Does, Stands};
    ghost use Rattle.sja_session.specs.Sessions.{IsAt};
    ghost use Rattle.sja_session.specs.Stepping.{DoesStep, MayStep};

    /// Writes a byte to an address of a node as the typed steps that this is.
    #[inline(never)]
    pub(crate) fn write_typed(&mut self, node: u8, address: u8, value: u8) -> Result<(), StepFault>
        requires typed { by_bytes self.old.plan.version ≡ false }
        ensures { AnswersWrite self.old self.new node address value result }
    {
        let place = usize::from(node);
        if place >= self.plan.nodes() {
            return Err(StepFault::NoNode);
        }
        let port = self.run.port(place);
        let steps = steps_of_write(self.run.driver(place), port, address, value);
        self.may_do(node, count_of(&steps))?;
        let WriteSteps {
            first,
            second,
            third,
        } = steps;
        self.do_if(node, first);
        self.do_if(node, second);
        self.do_if(node, third);
        Ok(())
    }

    /// Whether so many steps of a node may be tried, one right after the other.
    ///
    /// Errors: as [`write`](Session::write) tells them.
    fn may_do(&self, node: u8, count: usize) -> Result<(), StepFault>
        requires { count ≤ 3 }
        ensures ok { OnOk result (MayDo self.now node count) }
        ensures err { IfErr result (IsAccessFault self.now node count) }
    {
        let place = usize::from(node);
        if place >= self.plan.nodes() {
            return Err(StepFault::NoNode);
        }
        let most = self.room.steps as usize;
        if count > most || self.done(place) > most - count {
            return Err(StepFault::StepsUsed);
        }
        if count > 0 && !self.has_turn(Turn::Node(node, 1)) {
            return Err(StepFault::TurnsUsed);
        }
        Ok(())
    }

    /// Does a step that never waits, where there is one.
    fn do_if(&mut self, node: u8, step: Option<Step>)
        requires stands { Stands self.old }
        requires may { MayDo self.old node (length (listed step)) }
        requires prompt { IsPromptIf step }
        ensures { (step_runs : List (List StepRun)) → IsAt self.old step_runs →
            Does self.old self.new node (listed step) step_runs }
    {
        if let Some(step) = step {
            self.do_one(node, step);
        }
    }

    /// Does a step that never waits, and gives its answer.
    fn do_prompt(&mut self, node: u8, step: Step) -> StepAnswer
        requires stands { Stands self.old }
        requires may { MayStep self.old node }
        requires prompt { IsPrompt step }
        ensures { (step_runs : List (List StepRun)) → IsAt self.old step_runs →
            DoesStep self.old self.new node step result step_runs }
    {
        match self.step(node, step) {
            Ok(StepOutcome::Answer(answer)) => answer,
            Ok(StepOutcome::Waits) => unreachable!(),
            Err(_) => unreachable!(),
        }
    }

    /// Does a step that never waits.
    fn do_one(&mut self, node: u8, step: Step)
        requires stands { Stands self.old }
        requires may { MayDo self.old node 1 }
        requires prompt { IsPrompt step }
        ensures { (step_runs : List (List StepRun)) → IsAt self.old step_runs →
            Does self.old self.new node (step ∷ []) step_runs }
    {
        let _ = self.do_prompt(node, step);
    }
}

/// How many steps these are.
fn count_of(steps: &WriteSteps) -> usize
    ensures { result ≡ length (steps_in steps.now) }
{
    count_if(&steps.first) + count_if(&steps.second) + count_if(&steps.third)
}

/// 1 where there is a step.
fn count_if(step: &Option<Step>) -> usize
    ensures { result ≡ length (listed step.now) }
{
    match step {
        Some(_) => 1,
        None => 0,
    }
}
