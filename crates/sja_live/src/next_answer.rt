//! The next answer of a talk.

ghost use Rattle.std.specs.Prelude.{◌≡◌, List, IfOk, IfErr, OnOk};
ghost use Rattle.sja_driver.specs.StepRuns.{StepRun};
ghost use Rattle.sja_live.specs.Inside.Standing.{IsLive, IsLiveAt};
ghost use Rattle.sja_live.specs.Inside.LiveProgress.{FirstSays, IsNextAnswer, IsAnswerOf};
ghost use Rattle.sja_live.specs.Inside.Reading.{LeavesLine};
ghost use Rattle.sja_live.specs.Lines.{IsReadable};
ghost use Rattle.sja_live.specs.declared.live_session_fault.LiveSessionFault.TheVariants.{Memory};

use super::answering::answered;
use super::command_refusal::CommandRefusal;
use super::line_fault::LineFault;
use super::line_words::asked;
use super::live_answer::LiveAnswer;
use super::live_command::LiveCommand;
use super::live_session_fault::LiveSessionFault;
use super::next_line::{Line, next_line};
use super::opening::Opening;
use super::opening_fault::OpeningFault;
use super::opening_refusal::OpeningRefusal;
use super::opening_words::opened;
use sja_session::Session;
use std::alloc::Global;
use std::io::Read;

/// Reads the first line: the session that it opens, or why it opens none.
///
/// Errors: [`LiveSessionFault::Memory`] and [`LiveSessionFault::Read`].
#[tactic(auto, using(crate::proofs::Replies::LineAnswers::first_lines, crate::proofs::Talks::BreakingOff::line_taken))]
pub(crate) fn first_said<R: Read>(
    alloc: Global,
    input: &mut R,
) -> Result<Result<Opening, OpeningFault>, LiveSessionFault>
    ensures said { IfOk result (FirstSays (R.remaining input.old) (R.remaining input.new)) }
    ensures broken { IfErr result (LeavesLine (R.remaining input.old) (R.remaining input.new)) }
{
    match next_line(alloc, input)? {
        Line::Text(line) => match opened(alloc, line.as_str()) {
            Ok(opening) => Ok(Ok(opening)),
            Err(OpeningRefusal::Fault(fault)) => Ok(Err(fault)),
            Err(OpeningRefusal::Memory) => Err(LiveSessionFault::Memory),
        },
        Line::Long => Ok(Err(OpeningFault::Long)),
        Line::NoText => Ok(Err(OpeningFault::Text)),
        Line::Over => Ok(Err(OpeningFault::Command)),
    }
}

/// Reads a line and does what it asks for; none, where it ends the talk or there is no line.
///
/// Errors: [`LiveSessionFault::Memory`] and [`LiveSessionFault::Read`].
#[tactic(auto, using(crate::proofs::Replies::LineAnswers::next_lines, crate::proofs::Talks::BreakingOff::line_taken))]
pub(crate) fn next_answer<R: Read>(
    alloc: Global,
    input: &mut R,
    session: &mut Session,
) -> Result<Option<LiveAnswer>, LiveSessionFault>
    requires { IsLive session.old }
    ensures live { OnOk result (IsLive session.new) }
    ensures next { IfOk result (λ next. (step_runs : List (List StepRun)) → IsLiveAt session.old step_runs →
        IsNextAnswer (R.remaining input.old) (R.remaining input.new) session.old session.new step_runs next) }
    ensures broken { IfErr result (LeavesLine (R.remaining input.old) (R.remaining input.new)) }
{
    match next_line(alloc, input)? {
        Line::Over => Ok(None),
        Line::Long => Ok(Some(LiveAnswer::Long)),
        Line::NoText => Ok(Some(LiveAnswer::Mistaken(LineFault::Text))),
        Line::Text(line) => answer_of(alloc, session, line.as_str()),
    }
}

/// Does what a line asks for; none, where that is the end.
///
/// Error: [`LiveSessionFault::Memory`].
#[tactic(auto, using(crate::proofs::Replies::LineAnswers::line_answers))]
fn answer_of(
    alloc: Global,
    session: &mut Session,
    line: &str,
) -> Result<Option<LiveAnswer>, LiveSessionFault>
    requires live { IsLive session.old }
    requires readable { IsReadable line.now }
    ensures live { OnOk result (IsLive session.new) }
    ensures next { IfOk result (λ next. (step_runs : List (List StepRun)) → IsLiveAt session.old step_runs →
        IsAnswerOf session.old session.new step_runs line.now next) }
    ensures err { IfErr result (λ fault. fault ≡ Memory) }
{
    let version = usize::from(session.version());
    let (endless, nodes) = (session.is_endless(), session.nodes());
    match asked(alloc, version, endless, nodes, line) {
        Ok(LiveCommand::End) => Ok(None),
        Ok(command) => Ok(Some(answered(alloc, session, command)?)),
        Err(CommandRefusal::Mistaken(fault)) => Ok(Some(LiveAnswer::Mistaken(fault))),
        Err(CommandRefusal::Memory) => Err(LiveSessionFault::Memory),
    }
}
