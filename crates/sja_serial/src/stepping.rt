//! One act of a node's driver, with the taking of what it gave.

ghost use Rattle.std.specs.Prelude.{◌≡◌, Option, true};
ghost use Rattle.sja_driver.specs.GivenNothing.{GaveNothing, GivesNothing};

use super::serial_run::SerialRun;
use sja_regs::Command;
use sja_steps::{Step, StepAnswer};

impl SerialRun {
    ghost use Rattle.std.specs.Prelude.{◌≡◌, ◌<◌, List, IfSome, None, length, slice_index_or};
    ghost use Rattle.sja_driver.specs.TypedActs.{TypedAct, acts_at};
    ghost use Rattle.sja_serial.specs.Serial.{Setup, StandsAt};
    ghost use Rattle.sja_serial.specs.Stepping.{DoesAct, DoesNothing, HasActLeft};

    /// Tries this step as one act of the driver of a node, counted from 0, and takes what it gave: the bus refuses no
    /// item of it. It gives the answer; none where the step has to wait, and nothing happened. No bit is run, and the
    /// driver's log has nothing of it.
    #[inline(always)]
    pub(crate) fn act(&mut self, node: u8, step: &Step) -> Option<StepAnswer>
        ghost setup: { Setup }
        requires room { HasActLeft setup self.old node }
        ensures done { IfSome result (λ answer. (acts : List (List TypedAct)) → StandsAt setup self.old acts →
            length (acts_at acts node) < slice_index_or setup.steps node 0 →
            DoesAct setup self.old self.new node step.now answer acts) }
        ensures waits { result ≡ None → (acts : List (List TypedAct)) → StandsAt setup self.old acts →
            length (acts_at acts node) < slice_index_or setup.steps node 0 →
            DoesNothing setup self.old self.new node step.now acts }
    {
        let index = usize::from(node);
        let links = self.links.as_mut_slice();
        let end = &mut links[index];
        let port = &mut self.board.ports[index];
        let driver = &mut self.drivers[index];
        let answer = driver.step(end, port, step);
        if gave_nothing(step, &answer) {
            // Asked for what holds of every bus.
            let _ = self.bus.bits_run();
            return answer;
        }
        match self.bus.gather(links) {
            Ok(()) => answer,
            Err(_) => unreachable!(),
        }
    }
}

/// Whether a step that was tried gave the bus nothing: none of its kind does, or it isn't done, or it was refused.
/// Nothing is to be taken after it.
#[inline(always)]
fn gave_nothing(step: &Step, answer: &Option<StepAnswer>) -> bool
    ensures { result ≡ true → GaveNothing step.now answer.now }
{
    if gives_nothing(step) {
        return true;
    }
    match answer {
        Some(answer) => matches!(answer, StepAnswer::Refused(_)),
        None => true,
    }
}

/// Whether a step gives the bus nothing, whatever comes of it.
#[inline(always)]
fn gives_nothing(step: &Step) -> bool
    ensures { result ≡ true → GivesNothing step.now }
{
    match step {
        Step::Start | Step::Stop | Step::Release => false,
        Step::Command(value) => !Command::of(*value).requests(),
        _ => true,
    }
}
