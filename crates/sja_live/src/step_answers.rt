//! What steps and accesses are answered.

ghost use Rattle.std.specs.Prelude.{◌≡◌};
ghost use Rattle.sja_live.specs.Answering.{step_refusal};
ghost use Rattle.sja_live.specs.Inside.Standing.{IsAnswered};
ghost use Rattle.sja_live.specs.declared.live_command.LiveCommand.TheVariants.{Step as StepOf, Read, Write};
ghost use Rattle.sja_plan_text.specs.HasTexts.{HasStepText};

use super::exhausted::Exhausted;
use super::line_fault::LineFault;
use super::live_answer::LiveAnswer;
use sja_session::{Session, StepFault, StepOutcome};
use sja_steps::{Step, StepAnswer};

/// What a step is answered.
pub(crate) fn stepped(session: &mut Session, node: u8, step: Step) -> LiveAnswer
    requires spelled { HasStepText session.old.plan.version step }
    ensures { IsAnswered session.old session.new (StepOf node step) result }
{
    match session.step(node, step) {
        Ok(StepOutcome::Answer(answer)) => LiveAnswer::Told(answer),
        Ok(StepOutcome::Waits) => LiveAnswer::Waits,
        Err(fault) => not_done(fault),
    }
}

/// What a read is answered.
pub(crate) fn was_read(session: &mut Session, node: u8, address: u8) -> LiveAnswer
    ensures { IsAnswered session.old session.new (Read node address) result }
{
    match session.read(node, address) {
        Ok(value) => LiveAnswer::Told(StepAnswer::Value(value)),
        Err(fault) => not_done(fault),
    }
}

/// What a write is answered.
pub(crate) fn was_written(session: &mut Session, node: u8, address: u8, value: u8) -> LiveAnswer
    ensures { IsAnswered session.old session.new (Write node address value) result }
{
    match session.write(node, address, value) {
        Ok(()) => LiveAnswer::Told(StepAnswer::Done),
        Err(fault) => not_done(fault),
    }
}

/// What a step or an access is answered that isn't tried.
fn not_done(fault: StepFault) -> LiveAnswer
    ensures { result ≡ step_refusal fault }
{
    match fault {
        StepFault::NoNode => LiveAnswer::Mistaken(LineFault::Node),
        StepFault::StepsUsed => LiveAnswer::Full(Exhausted::Steps),
        StepFault::TurnsUsed => LiveAnswer::Full(Exhausted::Turns),
    }
}
