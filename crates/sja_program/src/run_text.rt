//! [`RunText`]: what is written of a run.

ghost use Rattle.std.specs.Prelude.{◌≡◌, Bool, IfOk, IfErr, OnOk, string_bytes};
ghost use Rattle.sja_command_line.specs.Requests.{picture};
ghost use Rattle.sja_program.specs.Answer.{picture_or_drawing, request_for};
ghost use Rattle.sja_program.specs.RunText.{IsTextOf, MayBeWritten, levels_drawn};
ghost use Rattle.sja_program.specs.RunRefusals.{RefusesTextOf};

use can_frame::OutOfMemory;
use sja_log::RunLog;
use sja_plan::Plan;
use std::alloc::Global;
use text_candump::candump;
use text_codec::CommandRefusal;
use text_frames::frames;
use text_picture::{Span, picture};
use text_report::report;
use text_svg::drawing;
use text_trace::trace;
use text_wave::wave;

/// How many levels a drawing has at most, unless more are meant: some 20 MB (this project's own rule).
const MOST_LEVELS: u64 = 150_000;

/// What is written of a run (this project's own rule).
#[derive(Clone, Copy, Debug, PartialEq, Eq)]
pub enum RunText {
    /// Its report.
    Report,
    /// Its waveform.
    Wave,
    /// What happened in it, event by event.
    Trace,
    /// The bits of its frames; those of each byte of data where that is true.
    Frames(bool),
    /// Its picture from a bit on, up to another one or to its last; whether a larger drawing would be meant.
    Picture(u32, Option<u32>, bool),
    /// The same bits as a drawing in SVG; with more levels than 150,000, one of each node in each bit, only where that
    /// is meant.
    Drawing(u32, Option<u32>, bool),
    /// What each node received, with error frames where that is true.
    Candump(bool),
}

/// What `picture` writes of the bits from the first to the last one: with `svg` a drawing in SVG, otherwise a picture.
pub fn picture_or_drawing(first: u32, last: Option<u32>, svg: bool, meant: bool) -> RunText
    ensures text { result ≡ picture_or_drawing svg first last meant }
    ensures asked { (threads : Bool) → request_for threads result ≡ picture first last svg threads meant }
{
    if svg {
        RunText::Drawing(first, last, meant)
    } else {
        RunText::Picture(first, last, meant)
    }
}

/// This text of the run of a plan with this log.
///
/// Errors: [`CommandRefusal::OutOfMemory`] where memory was refused, and [`CommandRefusal::Drawing`] where a drawing
/// would have more levels than 150,000, and it isn't said that so many are meant.
pub fn text_of(
    alloc: Global,
    what: RunText,
    plan: &Plan,
    log: &RunLog,
) -> Result<Vec<u8>, CommandRefusal>
    ensures ok { IfOk result (λ text. MayBeWritten what plan.now log.now
        × IsTextOf what plan.now log.now text.items) }
    ensures err { IfErr result (RefusesTextOf what plan.now log.now) }
{
    judge(what, plan, log)?;
    let text = render(alloc, what, plan, log)?;
    Ok(text.into_bytes())
}

/// Looks whether this may be written of the run.
///
/// Error: [`CommandRefusal::Drawing`] where it is a drawing of too many levels.
fn judge(what: RunText, plan: &Plan, log: &RunLog) -> Result<(), CommandRefusal>
    ensures ok { OnOk result (MayBeWritten what plan.now log.now) }
    ensures err { IfErr result (RefusesTextOf what plan.now log.now) }
{
    if let RunText::Drawing(first, last, false) = what {
        let levels = levels_drawn(plan, log, first, last);
        if levels > MOST_LEVELS {
            return Err(CommandRefusal::Drawing(levels));
        }
    }
    Ok(())
}

/// How many levels the drawing of these bits has.
fn levels_drawn(plan: &Plan, log: &RunLog, first: u32, last: Option<u32>) -> u64
    ensures { result ≡ levels_drawn plan.now log.now first last }
{
    let span = Span::of(first, last, log.bits());
    plan.nodes() as u64 * u64::from(span.end.saturating_sub(span.first))
}

/// The same, not yet as bytes.
fn render(alloc: Global, what: RunText, plan: &Plan, log: &RunLog) -> Result<String, OutOfMemory>
    ensures { IfOk result (λ text. IsTextOf what plan.now log.now (string_bytes text)) }
{
    match what {
        RunText::Report => report(alloc, log),
        RunText::Wave => wave(alloc, log),
        RunText::Trace => trace(alloc, plan, log),
        RunText::Frames(bits) => frames(alloc, log, bits),
        RunText::Picture(first, last, _) => picture(alloc, log, first, last),
        RunText::Drawing(first, last, _) => drawing(alloc, log, first, last),
        RunText::Candump(errors) => candump(alloc, log, errors),
    }
}
