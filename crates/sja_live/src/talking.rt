//! A talk: lines of a reader, each answered before the next one is read.

ghost use Rattle.std.specs.Prelude.{◌≡◌, ◌≢◌, List, Option, IfOk, IfErr, OnOk};
ghost use Rattle.std.specs.Io.KnownBytes.{Appends};
ghost use Rattle.sja_driver.specs.StepRuns.{StepRun};
ghost use Rattle.sja_live.specs.AnswerTexts.{answer_text, opening_text};
ghost use Rattle.sja_live.specs.Beginning.{IsNewOf};
ghost use Rattle.sja_live.specs.Inside.Standing.{IsLive, IsLiveAt};
ghost use Rattle.sja_live.specs.Inside.LiveProgress.{AppendsReport, IsBegun, IsOver};
ghost use Rattle.sja_live.specs.Talking.{IsTold, IsBrokenOff, Speaks};
ghost use Rattle.sja_live.specs.declared.live_session_fault.LiveSessionFault.TheVariants.{Memory as MemoryFault};
ghost use Rattle.sja_live.specs.declared.live_session_fault.LiveSessionFault.TheVariants.{Write as WriteFault};
ghost use Rattle.sja_live.specs.declared.live_session_end.LiveSessionEnd.TheVariants.{Reported};
ghost use Rattle.sja_plan_reading.specs.Words.{Text};

use super::answer_text::put_answer;
use super::live_answer::LiveAnswer;
use super::live_session_end::LiveSessionEnd;
use super::live_session_fault::LiveSessionFault;
use super::next_answer::{first_said, next_answer};
use super::opening::Opening;
use super::opening_fault::OpeningFault;
use sja_plan::FIRST_BY_BYTES;
use sja_session::{NoPlan, Session, SessionFault};
use std::alloc::Global;
use std::io::{Read, Write};
use text_report::report;

/// Talks with whoever writes the input: the first line opens a session, each further line is a call of it, whose answer
/// is written and flushed before the next line is read, and `end`, or the end of the input, ends the talk with the
/// report of the session's log, or with a line that a session without an end has none.
///
/// Errors: [`LiveSessionFault::Memory`], [`LiveSessionFault::Read`] and [`LiveSessionFault::Write`], where memory was
/// refused, or a read or a write failed. What was answered before stays written.
#[tactic(auto, using(crate::proofs::Talks::GoingOn::talk_refused, crate::proofs::Talks::BreakingOff::unopened))]
pub fn talk<R: Read, W: Write>(
    alloc: Global,
    input: &mut R,
    out: &mut W,
) -> Result<LiveSessionEnd, LiveSessionFault>
    ensures told { IfOk result (λ talked. Speaks (R.remaining input.old) (R.remaining input.new) (W.contents out.old)
        (W.contents out.new) (IsTold talked)) }
    ensures broken { IfErr result (λ fault. fault ≢ WriteFault →
        Speaks (R.remaining input.old) (R.remaining input.new) (W.contents out.old) (W.contents out.new)
        (IsBrokenOff fault)) }
{
    let opening = match first_said(alloc, input)? {
        Ok(opening) => opening,
        Err(fault) => {
            put(out, opening_line(fault))?;
            return Ok(LiveSessionEnd::Unopened);
        }
    };
    let Ok(session) = new_session(alloc, opening) else {
        return Err(LiveSessionFault::Memory);
    };
    talk_on(alloc, input, out, session)?;
    Ok(LiveSessionEnd::Reported)
}

/// The session that the first line opens.
///
/// Errors: those of [`Session::new`] and [`Session::endless`].
fn new_session(alloc: Global, opening: Opening) -> Result<Session, SessionFault>
    ensures { IfOk result (λ session. IsNewOf session opening) }
{
    if opening.version == FIRST_BY_BYTES && opening.bits == 0 {
        return Session::endless(alloc, opening.nodes);
    }
    Session::new(alloc, opening.version, opening.bits, opening.nodes)
}

/// Goes on with a talk whose first line opened this session, to its end.
///
/// Errors: those of [`talk`].
fn talk_on<R: Read, W: Write>(
    alloc: Global,
    input: &mut R,
    out: &mut W,
    mut session: Session,
) -> Result<(), LiveSessionFault>
    requires { IsLive session }
    ensures told { OnOk result ((before : Option Text) → IsBegun before (R.remaining input.old) session →
        Speaks before (R.remaining input.new) (W.contents out.old) (W.contents out.new) (IsTold Reported)) }
    ensures broken { IfErr result (λ fault. fault ≢ WriteFault → (before : Option Text) →
        IsBegun before (R.remaining input.old) session →
        Speaks before (R.remaining input.new) (W.contents out.old) (W.contents out.new) (IsBrokenOff fault)) }
{
    match answer_lines(alloc, input, out, &mut session) {
        Ok(()) => put_report(alloc, out, session),
        Err(fault) => Err(fault),
    }
}

/// Says that the session is open, and answers the lines behind the first one, up to the one that ends the talk.
///
/// Errors: those of [`talk`].
fn answer_lines<R: Read, W: Write>(
    alloc: Global,
    input: &mut R,
    out: &mut W,
    session: &mut Session,
) -> Result<(), LiveSessionFault>
    requires { IsLive session.old }
    ensures over { OnOk result ((before : Option Text) → IsBegun before (R.remaining input.old) session.old →
        IsOver before (R.remaining input.new) (W.contents out.old) (W.contents out.new) session.new) }
    ensures broken { IfErr result (λ fault. fault ≢ WriteFault → (before : Option Text) →
        IsBegun before (R.remaining input.old) session.old →
        Speaks before (R.remaining input.new) (W.contents out.old) (W.contents out.new) (IsBrokenOff fault)) }
{
    put(out, "ok\n")?;
    for _ in 0..u64::MAX {
        let Some(answer) = next_answer(alloc, input, session)? else {
            return Ok(());
        };
        put_line(alloc, out, &answer)?;
    }
    Err(LiveSessionFault::Read)
}

/// The line that says why there is no session.
fn opening_line(fault: OpeningFault) -> &'static str
    ensures { result.now ≡ opening_text fault }
{
    match fault {
        OpeningFault::Long => "long\n",
        OpeningFault::Text => "no TEXT\n",
        OpeningFault::Command => "no COMMAND\n",
        OpeningFault::Version => "no VERSION\n",
        OpeningFault::Bits => "no BITS\n",
        OpeningFault::Nodes => "no NODES\n",
    }
}

/// Writes the line of an answer.
fn put_line<W: Write>(
    alloc: Global,
    out: &mut W,
    answer: &LiveAnswer,
) -> Result<(), LiveSessionFault>
    ensures told { OnOk result (Appends (W.contents out.old) (W.contents out.new) (answer_text answer.now)) }
    ensures kept { IfErr result (λ f. f ≢ WriteFault → W.contents out.new ≡ W.contents out.old) }
    ensures memory { IfErr result (λ f. f ≢ WriteFault → f ≡ MemoryFault) }
{
    let mut text = String::new(alloc);
    put_answer(alloc, &mut text, answer)?;
    put(out, text.as_str())
}

/// Ends a session, and writes its report, or that one without an end has none.
fn put_report<W: Write>(
    alloc: Global,
    out: &mut W,
    session: Session,
) -> Result<(), LiveSessionFault>
    ensures told { OnOk result ((step_runs : List (List StepRun)) → IsLiveAt session step_runs →
        AppendsReport (W.contents out.old) (W.contents out.new) session step_runs) }
    ensures kept { IfErr result (λ f. f ≢ WriteFault → W.contents out.new ≡ W.contents out.old) }
    ensures memory { IfErr result (λ f. f ≢ WriteFault → f ≡ MemoryFault) }
{
    session.accounts();
    match session.finish(alloc) {
        Ok((_plan, log)) => {
            let text = report(alloc, &log)?;
            put(out, text.as_str())
        }
        Err(NoPlan::Endless) => put(out, "no REPORT\n"),
        Err(NoPlan::Memory) => Err(LiveSessionFault::Memory),
    }
}

/// Writes a text and flushes it.
fn put<W: Write>(out: &mut W, text: &str) -> Result<(), LiveSessionFault>
    ensures told { OnOk result (Appends (W.contents out.old) (W.contents out.new) text.now) }
    ensures err { IfErr result (λ f. f ≡ WriteFault) }
{
    if out.write_all(text.as_bytes()).is_err() || out.flush().is_err() {
        return Err(LiveSessionFault::Write);
    }
    Ok(())
}
