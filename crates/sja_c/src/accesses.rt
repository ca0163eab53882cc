//! `sja_read` and `sja_write`.

ghost use types.Logic.{sem};
ghost use Rattle.std.specs.Prelude.{◌≡◌};
ghost use Rattle.sja_c.specs.Answers.{answer, no_handle_status};
ghost use Rattle.sja_c.specs.Exports.{AnswersRead, AnswersWrite};
ghost use Rattle.sja_c.specs.Handles.{is_handle, AtHandle};
ghost use Rattle.sja_calls.specs.declared.handle.Handle.{Handle as HeldOf};

use super::answer::{SjaAnswer, done, no_handle, refused};
use sja_calls::Handle;

/// Reads an address of a node: `sja_read` of `c/sja.h`.
#[unsafe(no_mangle)]
pub unsafe extern "C" fn sja_read(at: *mut u8, node: u32, address: u32) -> SjaAnswer
    ghost held: { HeldOf }
    requires* { sem 𝓛 (is_handle at held) }
    ensures* { ∃ₛ (λ (after : HeldOf). sem 𝓛 (is_handle at after)
        ∗ ⌜ AtHandle at (result ≡ answer no_handle_status 0) (AnswersRead held after node address result) ⌝) }
{
    if at.is_null() {
        return no_handle();
    }
    read_of(&mut *(at as *mut Handle), node, address)
}

/// Reads an address of a node.
fn read_of(held: &mut Handle, node: u32, address: u32) -> SjaAnswer
    ensures { AnswersRead held.old held.new node address result }
{
    match held.read(node, address) {
        Ok(value) => done(u64::from(value)),
        Err(fault) => refused(fault),
    }
}

/// Writes a byte to an address of a node: `sja_write` of `c/sja.h`.
#[unsafe(no_mangle)]
pub unsafe extern "C" fn sja_write(at: *mut u8, node: u32, address: u32, value: u32) -> SjaAnswer
    ghost held: { HeldOf }
    requires* { sem 𝓛 (is_handle at held) }
    ensures* { ∃ₛ (λ (after : HeldOf). sem 𝓛 (is_handle at after)
        ∗ ⌜ AtHandle at (result ≡ answer no_handle_status 0) (AnswersWrite held after node address value result) ⌝) }
{
    if at.is_null() {
        return no_handle();
    }
    write_of(&mut *(at as *mut Handle), node, address, value)
}

/// Writes a byte to an address of a node.
fn write_of(held: &mut Handle, node: u32, address: u32, value: u32) -> SjaAnswer
    ensures { AnswersWrite held.old held.new node address value result }
{
    match held.write(node, address, value) {
        Ok(()) => done(0),
        Err(fault) => refused(fault),
    }
}
