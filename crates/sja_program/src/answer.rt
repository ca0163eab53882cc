//! What is written for a task.

ghost use Rattle.std.specs.Prelude.{◌≡◌, ◌⊎◌, IfOk, IfErr, false};
ghost use Rattle.sja_command_line.specs.Requests.{request_of};
ghost use Rattle.sja_program.specs.Answer.{AsksForRun, IsCheck, IsLeftOver, IsPrinted, request_for};
ghost use Rattle.sja_program.specs.Replies.{AsksForText};
ghost use Rattle.sja_program.specs.Denials.{IsDenied};

use super::plan_document::spelled_input;
use super::registers::registers;
use super::run_text::{RunText, picture_or_drawing};
use super::serial_text::write_text;
use super::struck_plan::strike;
use super::sweeps::told_sweep;
use super::unanswered::Unanswered;
use sja_command_line::Task;
use std::alloc::Global;
use std::io::Read;
use text_codec::{arbitrated, decoded, encoded, filtered, translated};

/// The text that answers the task, which isn't left to another call and isn't `check`. Only for a text of a run, for
/// `sweep` and for `plan` the input is read.
#[tactic(auto, using(crate::proofs::Denied::once))]
pub(crate) fn printed<R: Read>(
    alloc: Global,
    task: Task<'_>,
    input: &mut R,
) -> Result<Vec<u8>, Unanswered>
    requires alone { ¬ IsLeftOver (request_of task) }
    requires printed { ¬ IsCheck (request_of task) }
    ensures ok { IfOk result (λ text.
        IsPrinted (request_of task.entry) (R.remaining input.old) (R.remaining input.new) text.items) }
    ensures err { IfErr result (IsDenied (request_of task.entry) (R.remaining input.old) (R.remaining input.new)) }
    ensures unread { AsksForRun (request_of task.entry) ⊎ (input.new ≡ input.old) }
{
    match task {
        Task::Encode(digits) => Ok(encoded(alloc, digits)?),
        Task::Decode(digits) => Ok(decoded(alloc, digits)?),
        Task::Filter {
            single,
            acr,
            amr,
            message,
        } => Ok(filtered(alloc, single, acr, amr, message)?),
        Task::Arbitrate(messages) => Ok(arbitrated(alloc, messages.as_slice())?),
        Task::Message(text) => Ok(translated(alloc, text)?),
        Task::Sweep(words) => told_sweep(alloc, words, input),
        Task::StruckPlan { node, bit } => strike(alloc, node, bit, input),
        Task::Registers { bit } => registers(alloc, bit, input),
        Task::Plan => spelled_input(alloc, input),
        of_run => write_text(alloc, text_asked(&of_run), input),
    }
}

/// What is written of a run for a task that asks for a text of one, in one thread.
fn text_asked(task: &Task<'_>) -> RunText
    requires alone { ¬ IsLeftOver (request_of task.now) }
    requires run { AsksForText (request_of task.now) }
    ensures { request_of task.now ≡ request_for false result }
{
    match task {
        Task::Run { threads: false } => RunText::Report,
        Task::Wave { threads: false } => RunText::Wave,
        Task::Trace { threads: false } => RunText::Trace,
        Task::Frames {
            bits,
            threads: false,
        } => RunText::Frames(*bits),
        Task::Picture {
            first,
            last,
            svg,
            threads: false,
            meant,
        } => picture_or_drawing(*first, *last, *svg, *meant),
        Task::Candump {
            errors,
            threads: false,
        } => RunText::Candump(*errors),
        _ => unreachable!(),
    }
}
