//! `sja_place` and `sja_to`.

ghost use types.Logic.{sem};
ghost use Rattle.std.specs.Prelude.{◌≡◌};
ghost use Rattle.sja_c.specs.Answers.{answer, no_handle_status};
ghost use Rattle.sja_c.specs.Exports.{AnswersPlace, AnswersTo};
ghost use Rattle.sja_c.specs.Handles.{is_handle, AtHandle};
ghost use Rattle.sja_calls.specs.declared.handle.Handle.{Handle as HeldOf};

use super::answer::{SjaAnswer, done, no_handle, refused};
use sja_calls::Handle;

/// Tells the place of a node: `sja_place` of `c/sja.h`.
#[unsafe(no_mangle)]
pub unsafe extern "C" fn sja_place(at: *mut u8, node: u32) -> SjaAnswer
    ghost held: { HeldOf }
    requires* { sem 𝓛 (is_handle at held) }
    ensures* { ∃ₛ (λ (after : HeldOf). sem 𝓛 (is_handle at after)
        ∗ ⌜ AtHandle at (result ≡ answer no_handle_status 0) (AnswersPlace held after node result) ⌝) }
{
    if at.is_null() {
        return no_handle();
    }
    place_of(&mut *(at as *mut Handle), node)
}

/// Tells the place of a node.
fn place_of(held: &mut Handle, node: u32) -> SjaAnswer
    ensures { AnswersPlace held.old held.new node result }
{
    match held.place(node) {
        Ok(place) => done(place),
        Err(fault) => refused(fault),
    }
}

/// Runs bits up to a place of a node: `sja_to` of `c/sja.h`.
#[unsafe(no_mangle)]
pub unsafe extern "C" fn sja_to(at: *mut u8, node: u32, place: u32, limit: u32) -> SjaAnswer
    ghost held: { HeldOf }
    requires* { sem 𝓛 (is_handle at held) }
    ensures* { ∃ₛ (λ (after : HeldOf). sem 𝓛 (is_handle at after)
        ∗ ⌜ AtHandle at (result ≡ answer no_handle_status 0) (AnswersTo held after node place limit result) ⌝) }
{
    if at.is_null() {
        return no_handle();
    }
    to_of(&mut *(at as *mut Handle), node, place, limit)
}

/// Runs bits up to a place of a node.
fn to_of(held: &mut Handle, node: u32, place: u32, limit: u32) -> SjaAnswer
    ensures { AnswersTo held.old held.new node place limit result }
{
    match held.to(node, place, limit) {
        Ok(true) => done(1),
        Ok(false) => done(0),
        Err(fault) => refused(fault),
    }
}
