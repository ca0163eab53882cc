//! `sja_bits`, `sja_irq`, `sja_lines`, `sja_strike_at` and `sja_now`.

ghost use types.Logic.{sem};
ghost use Rattle.std.specs.Prelude.{◌≡◌};
ghost use Rattle.sja_c.specs.Answers.{answer, no_handle_status};
ghost use Rattle.sja_c.specs.Exports.{AnswersBits, AnswersIrq, AnswersLines, AnswersStrike, AnswersNow, whole_bit};
ghost use Rattle.sja_c.specs.Handles.{is_handle, AtHandle};
ghost use Rattle.sja_calls.specs.declared.handle.Handle.{Handle as HeldOf};

use super::answer::{SjaAnswer, done, done_bits, no_handle, refused};
use sja_calls::Handle;

/// Runs bits: `sja_bits` of `c/sja.h`.
#[unsafe(no_mangle)]
pub unsafe extern "C" fn sja_bits(at: *mut u8, count: u32, watch: u32) -> SjaAnswer
    ghost held: { HeldOf }
    requires* { sem 𝓛 (is_handle at held) }
    ensures* { ∃ₛ (λ (after : HeldOf). sem 𝓛 (is_handle at after)
        ∗ ⌜ AtHandle at (result ≡ answer no_handle_status 0) (AnswersBits held after count watch result) ⌝) }
{
    if at.is_null() {
        return no_handle();
    }
    bits_of(&mut *(at as *mut Handle), count, watch)
}

/// Runs bits.
fn bits_of(held: &mut Handle, count: u32, watch: u32) -> SjaAnswer
    ensures { AnswersBits held.old held.new count watch result }
{
    match held.bits(count, watch) {
        Ok(watched) => done_bits(watched.bits, watched.rose),
        Err(fault) => refused(fault),
    }
}

/// Looks at an interrupt line: `sja_irq` of `c/sja.h`.
#[unsafe(no_mangle)]
pub unsafe extern "C" fn sja_irq(at: *mut u8, node: u32) -> SjaAnswer
    ghost held: { HeldOf }
    requires* { sem 𝓛 (is_handle at held) }
    ensures* { ∃ₛ (λ (after : HeldOf). sem 𝓛 (is_handle at after)
        ∗ ⌜ AtHandle at (result ≡ answer no_handle_status 0) (AnswersIrq held after node result) ⌝) }
{
    if at.is_null() {
        return no_handle();
    }
    irq_of(&mut *(at as *mut Handle), node)
}

/// Looks at an interrupt line.
fn irq_of(held: &mut Handle, node: u32) -> SjaAnswer
    ensures { AnswersIrq held.old held.new node result }
{
    match held.irq(node) {
        Ok(true) => done(1),
        Ok(false) => done(0),
        Err(fault) => refused(fault),
    }
}

/// Looks at all interrupt lines: `sja_lines` of `c/sja.h`.
#[unsafe(no_mangle)]
pub unsafe extern "C" fn sja_lines(at: *mut u8) -> SjaAnswer
    ghost held: { HeldOf }
    requires* { sem 𝓛 (is_handle at held) }
    ensures* { ∃ₛ (λ (after : HeldOf). sem 𝓛 (is_handle at after)
        ∗ ⌜ AtHandle at (result ≡ answer no_handle_status 0) (AnswersLines held after result) ⌝) }
{
    if at.is_null() {
        return no_handle();
    }
    lines_of(&mut *(at as *mut Handle))
}

/// Looks at all interrupt lines.
fn lines_of(held: &mut Handle) -> SjaAnswer
    ensures { AnswersLines held.old held.new result }
{
    match held.lines() {
        Ok(lines) => done(u64::from(lines)),
        Err(fault) => refused(fault),
    }
}

/// Has a node see the other level in a bit, of which both halves are given: `sja_strike_at` of `c/sja.h`.
#[unsafe(no_mangle)]
pub unsafe extern "C" fn sja_strike_at(at: *mut u8, node: u32, low: u32, high: u32) -> SjaAnswer
    ghost held: { HeldOf }
    requires* { sem 𝓛 (is_handle at held) }
    ensures* { ∃ₛ (λ (after : HeldOf). sem 𝓛 (is_handle at after)
        ∗ ⌜ AtHandle at (result ≡ answer no_handle_status 0)
        (AnswersStrike held after node (whole_bit low high) result) ⌝) }
{
    if at.is_null() {
        return no_handle();
    }
    strike_of(&mut *(at as *mut Handle), node, low, high)
}

/// Has a node see the other level in a bit.
fn strike_of(held: &mut Handle, node: u32, low: u32, high: u32) -> SjaAnswer
    ensures { AnswersStrike held.old held.new node (whole_bit low high) result }
{
    match held.strike(node, u64::from(high) * 4_294_967_296 + u64::from(low)) {
        Ok(()) => done(0),
        Err(fault) => refused(fault),
    }
}

/// Tells how many bits were run: `sja_now` of `c/sja.h`.
#[unsafe(no_mangle)]
pub unsafe extern "C" fn sja_now(at: *mut u8) -> SjaAnswer
    ghost held: { HeldOf }
    requires* { sem 𝓛 (is_handle at held) }
    ensures* { ∃ₛ (λ (after : HeldOf). sem 𝓛 (is_handle at after)
        ∗ ⌜ AtHandle at (result ≡ answer no_handle_status 0) (AnswersNow held after result) ⌝) }
{
    if at.is_null() {
        return no_handle();
    }
    now_of(&mut *(at as *mut Handle))
}

/// Tells how many bits were run.
fn now_of(held: &mut Handle) -> SjaAnswer
    ensures { AnswersNow held.old held.new result }
{
    match held.now() {
        Ok(now) => done(now),
        Err(fault) => refused(fault),
    }
}
