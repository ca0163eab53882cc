//! `sja_make`, `sja_begin` and `sja_let_go`.

ghost use types.Logic.{sem};
ghost use Rattle.std.specs.Prelude.{◌≡◌};
ghost use Rattle.sja_c.specs.Answers.{answer, no_handle_status};
ghost use Rattle.sja_c.specs.Exports.{AnswersMake, AnswersBegin, AnswersLetGo};
ghost use Rattle.sja_c.specs.Handles.{is_handle, empty, AtHandle};
ghost use Rattle.sja_calls.specs.declared.handle.Handle.{Handle as HeldOf};

use super::answer::{SjaAnswer, done, no_handle, refused};
use super::new_handle::{NewHandle, make};
use sja_calls::Handle;
use std::alloc::Global;

/// Makes the place of a session, in which there is none: `sja_make` of `c/sja.h`.
#[unsafe(no_mangle)]
pub extern "C" fn sja_make(alloc: Global, session: &mut *mut u8) -> SjaAnswer
    ensures* { sem 𝓛 (is_handle session.new (empty alloc)) ∗ ⌜ AnswersMake session.new result ⌝ }
{
    let NewHandle { at, answer } = make(alloc);
    *session = at;
    answer
}

/// Begins a session to which nothing happened, in place of the one at the handle: `sja_begin` of `c/sja.h`.
#[unsafe(no_mangle)]
pub unsafe extern "C" fn sja_begin(at: *mut u8, version: u32, bits: u32, nodes: u32) -> SjaAnswer
    ghost held: { HeldOf }
    requires* { sem 𝓛 (is_handle at held) }
    ensures* { ∃ₛ (λ (after : HeldOf). sem 𝓛 (is_handle at after)
        ∗ ⌜ AtHandle at (result ≡ answer no_handle_status 0) (AnswersBegin held after version bits nodes result) ⌝) }
{
    if at.is_null() {
        return no_handle();
    }
    begin_of(&mut *(at as *mut Handle), version, bits, nodes)
}

/// Begins a session to which nothing happened.
fn begin_of(held: &mut Handle, version: u32, bits: u32, nodes: u32) -> SjaAnswer
    ensures { AnswersBegin held.old held.new version bits nodes result }
{
    match Handle::new(held.alloc, version, bits, nodes) {
        Ok(begun) => {
            *held = begun;
            done(0)
        }
        Err(fault) => refused(fault),
    }
}

/// Lets go of all that a session has in memory but for its own block: `sja_let_go` of `c/sja.h`. The right to free that
/// block stays the caller's, and `sja_free` of the header uses it.
#[unsafe(no_mangle)]
pub unsafe extern "C" fn sja_let_go(at: *mut u8) -> SjaAnswer
    ghost held: { HeldOf }
    requires* { sem 𝓛 (is_handle at held) }
    ensures* { ∃ₛ (λ (after : HeldOf). sem 𝓛 (is_handle at after)
        ∗ ⌜ AtHandle at (result ≡ answer no_handle_status 0) (AnswersLetGo after result) ⌝) }
{
    if at.is_null() {
        return no_handle();
    }
    let_go(&mut *(at as *mut Handle))
}

/// Lets go of all that a session has in memory.
fn let_go(held: &mut Handle) -> SjaAnswer
    ensures { AnswersLetGo held.new result }
{
    held.let_go();
    done(0)
}
