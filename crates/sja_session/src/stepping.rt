//! The steps of a session.

use super::answers::last_answer;
use super::lists::push_step;
use super::session::Session;
use super::step_fault::StepFault;
use super::step_outcome::StepOutcome;
use super::turns::{goes_on_last, note};
use sja_plan::Turn;
use sja_steps::Step;

impl Session {
    ghost use Rattle.std.specs.Prelude.{◌≡◌, List, Ok, IfErr, OnOk, OnErr};
    ghost use Rattle.sja_driver.specs.StepRuns.{StepRun};
    ghost use Rattle.sja_steps.specs.declared.step_answer.StepAnswer.{StepAnswer as AnswerOfStep};
    ghost use Rattle.sja_session.specs.declared.step_outcome.StepOutcome.TheVariants.{Answer, Waits as HasToWait};
    ghost use Rattle.sja_session.specs.Sessions.{IsAt};
    ghost use Rattle.sja_session.specs.Stepping.{MayStep, IsStepFault, DoesStep, Waits};

    /// Does a step of the driver of a node, counted from 0, now, after the bits that were run, and gives its answer. A
    /// step that has to wait says so, and nothing happened: it can be tried again. No bit is run.
    ///
    /// Errors, the first that holds, and nothing changed: [`StepFault::NoNode`] where there is no such node;
    /// [`StepFault::StepsUsed`] where as many steps of it are done as there is room for; [`StepFault::TurnsUsed`] where
    /// as many turns were taken as there is room for, and the last one isn't of this node.
    #[inline(always)]
    pub fn step(&mut self, node: u8, step: Step) -> Result<StepOutcome, StepFault>
        ensures done { (answer : AnswerOfStep) → result ≡ Ok (Answer answer) → (step_runs : List (List StepRun)) →
            IsAt self.old step_runs → DoesStep self.old self.new node step answer step_runs }
        ensures waits { result ≡ Ok HasToWait → (step_runs : List (List StepRun)) → IsAt self.old step_runs →
            Waits self.old self.new node step step_runs }
        ensures may { OnOk result (MayStep self.old node) }
        ensures err { IfErr result (IsStepFault self.old node) }
        ensures kept { OnErr result (self.new ≡ self.old) }
    {
        self.may_step(node)?;
        let (place, noted) = (usize::from(node), !self.is_endless());
        if !self.run.step(node, &step) {
            return Ok(StepOutcome::Waits);
        }
        push_step(&mut self.steps, place, step);
        note(&mut self.turns, noted, Turn::Node(node, 1));
        match last_answer(&self.run, place) {
            Some(answer) => Ok(StepOutcome::Answer(answer)),
            None => unreachable!(),
        }
    }

    /// Whether a step of this node may be tried.
    ///
    /// Errors: as [`step`](Session::step) tells them.
    #[inline(always)]
    fn may_step(&self, node: u8) -> Result<(), StepFault>
        ensures ok { OnOk result (MayStep self.now node) }
        ensures err { IfErr result (IsStepFault self.now node) }
    {
        let place = usize::from(node);
        if place >= self.plan.nodes() {
            return Err(StepFault::NoNode);
        }
        if (self.done(place) as u64) >= self.room.steps {
            return Err(StepFault::StepsUsed);
        }
        if !self.has_turn(Turn::Node(node, 1)) {
            return Err(StepFault::TurnsUsed);
        }
        Ok(())
    }
}

impl Session {
    ghost use Rattle.std.specs.Prelude.{◌≡◌, true, false};
    ghost use Rattle.sja_session.specs.Stepping.{HasTurn, LacksTurn};

    /// Whether a turn is left for this one, or it goes on with the last one, or none is needed.
    #[inline(always)]
    pub(crate) fn has_turn(&self, turn: Turn) -> bool
        ensures yes { result ≡ true → HasTurn self.now turn }
        ensures no { result ≡ false → LacksTurn self.now turn }
    {
        self.is_endless()
            || (self.turns.len() as u64) < self.room.turns
            || goes_on_last(self.turns.as_slice(), turn)
    }
}
