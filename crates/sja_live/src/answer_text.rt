//! The line of an answer.

ghost use Rattle.std.specs.Prelude.{◌≡◌, ◌++◌, [], ◌∷◌, codes, decimal, string_bytes, OnOk};
ghost use Rattle.hex.specs.Hex.{encode_lower};
ghost use Rattle.sja_live.specs.AnswerTexts.{answer_text, fault_word, told_words, used_word};
ghost use Rattle.text_report.specs.ReportLines.{line_text, words_text};
ghost use Rattle.text_report.specs.ReportWords.{byte_word};
ghost use Rattle.sja_steps.specs.Refusals.{refusal_name};

use super::exhausted::Exhausted;
use super::line_fault::LineFault;
use super::live_answer::LiveAnswer;
use super::place_text::put_place;
use hex::encode;
use sja_steps::{Refusal, StepAnswer};
use std::alloc::{AllocError, Global};
use std::fmt::Write;
use text_report::put_answer as put_spaced;

/// Writes the line of an answer.
///
/// Error: memory was refused.
pub(crate) fn put_answer(
    alloc: Global,
    text: &mut String,
    answer: &LiveAnswer,
) -> Result<(), AllocError>
    ensures { OnOk result (string_bytes text.new ≡ string_bytes text.old ++ answer_text answer.now) }
{
    match answer {
        LiveAnswer::Told(answer) => put_told(alloc, text, answer),
        LiveAnswer::Waits => text.push_str("wait\n"),
        LiveAnswer::Ran(bits) => put_number(text, "ran ", *bits as u64, "\n"),
        LiveAnswer::Rose(bits, lines) => {
            put_number(text, "ran ", *bits as u64, " line")?;
            put_byte(text, *lines)
        }
        LiveAnswer::Spent(bits) => put_number(text, "ran ", *bits as u64, " spent\n"),
        LiveAnswer::Lines(lines) => {
            text.push_str("line")?;
            put_byte(text, *lines)
        }
        LiveAnswer::Bits(bits) => put_number(text, "bits ", *bits, "\n"),
        LiveAnswer::At(place) => put_place(text, *place),
        LiveAnswer::Nothing => text.push_str("nothing\n"),
        LiveAnswer::PlanSoFar(document) => put_two(text, document.as_str(), ".\n"),
        LiveAnswer::NoPlan => text.push_str("no PLAN\n"),
        LiveAnswer::Mistaken(fault) => put_fault(text, *fault),
        LiveAnswer::NoBit => text.push_str("no BIT\n"),
        LiveAnswer::Full(used) => put_used(text, *used),
        LiveAnswer::Long => text.push_str("long\n"),
    }
}

/// Writes the line of what a step answers.
///
/// Error: memory was refused.
fn put_told(alloc: Global, text: &mut String, answer: &StepAnswer) -> Result<(), AllocError>
    ensures { OnOk result (string_bytes text.new ≡ string_bytes text.old ++ line_text (told_words answer.now)) }
{
    match answer {
        StepAnswer::Done | StepAnswer::Ignored(_) => text.push_str("ok\n"),
        StepAnswer::NoMessage => text.push_str("none\n"),
        StepAnswer::Shown(message) => put_message(alloc, text, message.bytes()),
        StepAnswer::Released(bytes) => put_number(text, "released ", u64::from(*bytes), "\n"),
        StepAnswer::Value(value) => {
            text.push_str("value")?;
            put_byte(text, *value)
        }
        StepAnswer::Refused(refusal) => put_refusal(text, *refusal),
    }
}

/// Writes the line of a message, as hexadecimal digits in lower case.
///
/// Error: memory was refused.
fn put_message(alloc: Global, text: &mut String, bytes: &[u8]) -> Result<(), AllocError>
    ensures { OnOk result (string_bytes text.new
        ≡ string_bytes text.old ++ line_text (codes "message" ∷ encode_lower bytes.now ∷ [])) }
{
    let digits = encode(alloc, bytes)?;
    writeln!(text, "message {digits}")
}

/// Writes the line of a refusal.
///
/// Error: memory was refused.
fn put_refusal(text: &mut String, refusal: Refusal) -> Result<(), AllocError>
    ensures { OnOk result (string_bytes text.new
        ≡ string_bytes text.old ++ line_text (codes "refused" ∷ refusal_name refusal ∷ [])) }
{
    writeln!(text, "refused {refusal}")
}

/// Writes the line of a mistake.
///
/// Error: memory was refused.
fn put_fault(text: &mut String, fault: LineFault) -> Result<(), AllocError>
    ensures { OnOk result (string_bytes text.new
        ≡ string_bytes text.old ++ line_text (codes "no" ∷ fault_word fault ∷ [])) }
{
    writeln!(text, "no {fault}")
}

/// Writes the line of what is used up.
///
/// Error: memory was refused.
fn put_used(text: &mut String, used: Exhausted) -> Result<(), AllocError>
    ensures { OnOk result (string_bytes text.new
        ≡ string_bytes text.old ++ line_text (codes "full" ∷ used_word used ∷ [])) }
{
    writeln!(text, "full {used}")
}

/// Writes a number, with what stands before it and behind it.
///
/// Error: memory was refused.
fn put_number(text: &mut String, before: &str, number: u64, behind: &str) -> Result<(), AllocError>
    ensures { OnOk result (string_bytes text.new
        ≡ string_bytes text.old ++ (before.now ++ (decimal number ++ behind.now))) }
{
    write!(text, "{before}{number}{behind}")
}

/// Writes two texts, one behind the other.
///
/// Error: memory was refused.
fn put_two(text: &mut String, first: &str, second: &str) -> Result<(), AllocError>
    ensures { OnOk result (string_bytes text.new ≡ string_bytes text.old ++ (first.now ++ second.now)) }
{
    text.push_str(first)?;
    text.push_str(second)
}

/// Writes a byte behind a space, and ends the line.
///
/// Error: memory was refused.
fn put_byte(text: &mut String, byte: u8) -> Result<(), AllocError>
    ensures { OnOk result (string_bytes text.new ≡ string_bytes text.old ++ words_text (byte_word byte ∷ [])) }
{
    put_spaced(text, &StepAnswer::Value(byte))?;
    text.push('\n')
}
