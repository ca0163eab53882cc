//! What a command is answered.

ghost use Rattle.std.specs.Prelude.{◌≡◌, IfOk, OnErr};
ghost use Rattle.sja_live.specs.Answering.{strike_refusal};
ghost use Rattle.sja_live.specs.Inside.Standing.{IsAnswered, IsLive, IsWritable};
ghost use Rattle.sja_live.specs.declared.live_command.LiveCommand.TheVariants.{Strike, Answer, Plan, Bits, Line};

use super::bit_answers::{ran, rested};
use super::exhausted::Exhausted;
use super::line_fault::LineFault;
use super::live_answer::LiveAnswer;
use super::live_command::LiveCommand;
use super::place_answers::{place_told, run_to};
use super::step_answers::{stepped, was_read, was_written};
use can_frame::OutOfMemory;
use sja_plan_text::{PlanTextFault, plan_text};
use sja_session::{NoPlan, Session, StrikeFault};
use sja_steps::StepAnswer;
use std::alloc::Global;

/// Does what a command asks for, which isn't the end, and gives its answer.
///
/// Error: [`OutOfMemory`] where memory was refused; nothing changed.
pub(crate) fn answered(
    alloc: Global,
    session: &mut Session,
    command: LiveCommand,
) -> Result<LiveAnswer, OutOfMemory>
    requires live { IsLive session.old }
    requires writable { IsWritable session.old command }
    ensures answers { IfOk result (IsAnswered session.old session.new command) }
    ensures kept { OnErr result (session.new ≡ session.old) }
{
    match command {
        LiveCommand::Step(node, step) => Ok(stepped(session, node, step)),
        LiveCommand::Read(node, address) => Ok(was_read(session, node, address)),
        LiveCommand::Write(node, address, value) => {
            Ok(was_written(session, node, address, value))
        }
        LiveCommand::Run(count) => Ok(ran(session, count)),
        LiveCommand::Rest => Ok(rested(session)),
        LiveCommand::To(node, place, limit) => Ok(run_to(session, node, place, limit)),
        LiveCommand::PlaceOf(node) => Ok(place_told(session, node)),
        LiveCommand::Line => Ok(lines(session)),
        LiveCommand::Strike(node, bit) => strike(session, node, bit),
        LiveCommand::Answer(node) => Ok(last_answer(session, node)),
        LiveCommand::Bits => Ok(bits_so_far(session)),
        LiveCommand::Plan => plan_answer(alloc, session),
        LiveCommand::End => unreachable!(),
    }
}

/// What a look at the interrupt lines is answered.
#[tactic(auto, using(crate::proofs::Replies::Asked::told_lines))]
fn lines(session: &mut Session) -> LiveAnswer
    ensures { IsAnswered session.old session.new Line result }
{
    LiveAnswer::Lines(session.lines())
}

/// How many bits were run.
#[tactic(auto, using(crate::proofs::Replies::Asked::told_bits))]
fn bits_so_far(session: &Session) -> LiveAnswer
    ensures { IsAnswered session.now session.now Bits result }
{
    LiveAnswer::Bits(session.now())
}

/// What a strike is answered.
///
/// Error: [`OutOfMemory`] where memory was refused; nothing changed.
fn strike(session: &mut Session, node: u8, bit: u64) -> Result<LiveAnswer, OutOfMemory>
    ensures answers { IfOk result (IsAnswered session.old session.new (Strike node bit)) }
    ensures kept { OnErr result (session.new ≡ session.old) }
{
    match session.strike(node, bit) {
        Ok(()) => Ok(LiveAnswer::Told(StepAnswer::Done)),
        Err(fault) => match not_struck(fault) {
            Some(answer) => Ok(answer),
            None => Err(OutOfMemory),
        },
    }
}

/// What a strike is answered that isn't taken; none, where memory was refused.
fn not_struck(fault: StrikeFault) -> Option<LiveAnswer>
    ensures { result ≡ strike_refusal fault }
{
    match fault {
        StrikeFault::NoNode => Some(LiveAnswer::Mistaken(LineFault::Node)),
        StrikeFault::NoBit => Some(LiveAnswer::NoBit),
        StrikeFault::Past => Some(LiveAnswer::NoBit),
        StrikeFault::StrikesUsed => Some(LiveAnswer::Full(Exhausted::Strikes)),
        StrikeFault::Memory => None,
    }
}

/// What the last step of a node answered.
fn last_answer(session: &Session, node: u8) -> LiveAnswer
    ensures { IsAnswered session.now session.now (Answer node) result }
{
    match session.answer(node) {
        Some(answer) => LiveAnswer::Told(answer),
        None => LiveAnswer::Nothing,
    }
}

/// The plan so far, or that there is none.
///
/// Error: [`OutOfMemory`] where memory was refused.
fn plan_answer(alloc: Global, session: &Session) -> Result<LiveAnswer, OutOfMemory>
    requires { IsLive session.now }
    ensures { IfOk result (IsAnswered session.now session.now Plan) }
{
    let plan = match session.plan(alloc) {
        Ok(plan) => plan,
        Err(NoPlan::Endless) => return Ok(LiveAnswer::NoPlan),
        Err(NoPlan::Memory) => return Err(OutOfMemory),
    };
    plan.limits();
    match plan_text(alloc, &plan) {
        Ok(document) => Ok(LiveAnswer::PlanSoFar(document)),
        Err(PlanTextFault::TooLong) => Ok(LiveAnswer::Full(Exhausted::Document)),
        Err(PlanTextFault::NoMemory) => Err(OutOfMemory),
    }
}
