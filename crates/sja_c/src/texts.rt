//! `sja_put_report`, `sja_put_plan` and `sja_put_run`.

ghost use types.Logic.{sem};
ghost use Rattle.std.specs.Prelude.{◌≡◌};
ghost use Rattle.sja_c.specs.Answers.{answer, no_handle_status};
ghost use Rattle.sja_c.specs.Exports.{AnswersReport, AnswersPlan, AnswersRun};
ghost use Rattle.sja_c.specs.Handles.{is_handle, AtHandle};
ghost use Rattle.sja_calls.specs.declared.handle.Handle.{Handle as HeldOf};

use super::answer::{SjaAnswer, done, no_handle, refused};
use sja_calls::{Handle, run_plan};
use std::alloc::Global;

/// Ends a session and puts its report into a text: `sja_put_report` of `c/sja.h`.
#[unsafe(no_mangle)]
pub unsafe extern "C" fn sja_put_report(at: *mut u8, text: &mut [u8]) -> SjaAnswer
    ghost held: { HeldOf }
    requires* { sem 𝓛 (is_handle at held) }
    ensures* { ∃ₛ (λ (after : HeldOf). sem 𝓛 (is_handle at after)
        ∗ ⌜ AtHandle at ((result ≡ answer no_handle_status 0) × (text.new ≡ text.old))
        (AnswersReport held after text.old text.new result) ⌝) }
{
    if at.is_null() {
        return no_text(text);
    }
    report_of(&mut *(at as *mut Handle), text)
}

/// Ends a session and puts its report into a text.
fn report_of(held: &mut Handle, text: &mut [u8]) -> SjaAnswer
    ensures { AnswersReport held.old held.new text.old text.new result }
{
    match held.report(text) {
        Ok(length) => done(length as u64),
        Err(fault) => refused(fault),
    }
}

/// Puts the plan that a session wrote into a text: `sja_put_plan` of `c/sja.h`.
#[unsafe(no_mangle)]
pub unsafe extern "C" fn sja_put_plan(at: *mut u8, text: &mut [u8]) -> SjaAnswer
    ghost held: { HeldOf }
    requires* { sem 𝓛 (is_handle at held) }
    ensures* { ∃ₛ (λ (after : HeldOf). sem 𝓛 (is_handle at after)
        ∗ ⌜ AtHandle at ((result ≡ answer no_handle_status 0) × (text.new ≡ text.old))
        (AnswersPlan held after text.old text.new result) ⌝) }
{
    if at.is_null() {
        return no_text(text);
    }
    plan_of(&mut *(at as *mut Handle), text)
}

/// Puts the plan that a session wrote into a text.
fn plan_of(held: &mut Handle, text: &mut [u8]) -> SjaAnswer
    ensures { AnswersPlan held.old held.new text.old text.new result }
{
    match held.plan(text) {
        Ok(length) => done(length as u64),
        Err(fault) => refused(fault),
    }
}

/// The handle is null, and no text is put.
pub(crate) fn no_text(_text: &mut [u8]) -> SjaAnswer
    ensures is { result ≡ answer no_handle_status 0 }
    ensures kept { _text.new ≡ _text.old }
{
    no_handle()
}

/// Runs a plan and puts the report of the run into a text: `sja_put_run` of `c/sja.h`.
#[unsafe(no_mangle)]
pub extern "C" fn sja_put_run(alloc: Global, plan: &[u8], text: &mut [u8]) -> SjaAnswer
    ensures { AnswersRun plan.now text.old text.new result }
{
    match run_plan(alloc, plan, text) {
        Ok(length) => done(length as u64),
        Err(fault) => refused(fault),
    }
}
