//! [`NewHandle`]: what `sja_make` makes.

ghost use denote.RawPtr.{null_ptr};
ghost use Rattle.std.specs.Prelude.{◌≡◌, ◌≢◌};
ghost use Rattle.sja_c.specs.Exports.{AnswersMake};
ghost use Rattle.sja_c.specs.Handles.{is_handle, empty};
ghost use Rattle.sja_calls.specs.declared.handle.Handle.{Handle as HeldOf};

use super::answer::{SjaAnswer, done, refused};
use super::loose::Loose;
use sja_calls::{CallFault, Handle, State};
use std::alloc::Global;
use std::marker::Model;
use std::ptr::null_mut;

/// What `sja_make` makes: a handle, or null, and what it answers.
pub(crate) struct NewHandle {
    /// The handle.
    pub(crate) at: *mut u8,
    /// The answer.
    pub(crate) answer: SjaAnswer,
    /// What lies at the handle, where it isn't null.
    pub(crate) ghost held: { HeldOf },
}

impl Model for NewHandle {
    ghost also_owns = { λ made. is_handle made.at made.held };
}

impl NewHandle {
    /// The handle of what lies on the heap, with this answer.
    fn of(loose: Loose<Handle, Global>, answer: SjaAnswer) -> NewHandle
        ensures { (result.at ≢ null_ptr) × (result.held ≡ loose.value) × (result.answer ≡ answer) }
    {
        let Loose { at, alloc: _ } = loose;
        NewHandle {
            at: at as *mut u8,
            answer,
        }
    }

    /// No handle, with this answer.
    fn none(_alloc: Global, answer: SjaAnswer) -> NewHandle
        ensures { (result.at ≡ null_ptr) × (result.held ≡ empty _alloc) × (result.answer ≡ answer) }
    {
        NewHandle {
            at: null_mut(),
            answer,
        }
    }
}

/// The handle of a place in which there is no session, and the answer; null where memory was refused.
pub(crate) fn make(alloc: Global) -> NewHandle
    ensures held { result.held ≡ empty alloc }
    ensures answer { AnswersMake result.at result.answer }
{
    let empty = Handle {
        alloc,
        state: State::Lost,
    };
    match Box::new(alloc, empty) {
        Ok(boxed) => NewHandle::of(Loose::of(boxed), done(0)),
        Err(_) => NewHandle::none(alloc, refused(CallFault::Memory)),
    }
}
