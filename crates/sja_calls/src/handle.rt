//! [`Handle`]: a session that a program in C holds.

use super::call_fault::CallFault;
use super::numbers::byte_of;
use super::state::State;
use sja_plan::FIRST_BY_BYTES;
use sja_session::{Session, SessionFault};
use std::alloc::Global;

/// A session that a program in C holds (this project's own rule), with the allocator that its calls take memory from.
#[derive(Drop)]
pub struct Handle {
    /// Where its calls take memory from.
    pub alloc: Global,
    /// Where the session is.
    pub state: State,
}

impl Handle {
    ghost use Rattle.std.specs.Prelude.{IfOk, IfErr};
    ghost use Rattle.sja_calls.specs.Beginnings.{IsNew, IsNoSession};

    /// A session to which nothing happened, with room for as many steps and turns as a plan of this version has at
    /// most; in version 3 with 0 bits one without an end.
    ///
    /// Errors, the first that holds: [`CallFault::Version`], [`CallFault::Bits`] and [`CallFault::Nodes`] where these
    /// aren't within the limits of a session; [`CallFault::Memory`] where memory was refused.
    pub fn new(alloc: Global, version: u32, bits: u32, nodes: u32) -> Result<Handle, CallFault>
        ensures new { IfOk result (λ held. IsNew version bits nodes held.state) }
        ensures err { IfErr result (IsNoSession version bits nodes) }
    {
        let Ok(version) = u8::try_from(version) else {
            return Err(CallFault::Version);
        };
        if version == FIRST_BY_BYTES && bits == 0 {
            return Handle::endless(alloc, nodes);
        }
        match Session::new(alloc, version, bits, byte_of(nodes)) {
            Ok(session) => Ok(Handle {
                alloc,
                state: State::Going(session),
            }),
            Err(SessionFault::Version) => Err(CallFault::Version),
            Err(SessionFault::Bits) => Err(CallFault::Bits),
            Err(SessionFault::NodeCount) => Err(CallFault::Nodes),
            Err(SessionFault::StepRoom) => unreachable!(),
            Err(SessionFault::TurnRoom) => unreachable!(),
            Err(SessionFault::Memory) => Err(CallFault::Memory),
        }
    }

    /// A session without an end to which nothing happened.
    ///
    /// Errors, the first that holds: [`CallFault::Nodes`] where these aren't within the limits; [`CallFault::Memory`]
    /// where memory was refused.
    fn endless(alloc: Global, nodes: u32) -> Result<Handle, CallFault>
        ensures new { IfOk result (λ held. IsNew 3 0 nodes held.state) }
        ensures err { IfErr result (IsNoSession 3 0 nodes) }
    {
        match Session::endless(alloc, byte_of(nodes)) {
            Ok(session) => Ok(Handle {
                alloc,
                state: State::Going(session),
            }),
            Err(SessionFault::NodeCount) => Err(CallFault::Nodes),
            Err(SessionFault::Memory) => Err(CallFault::Memory),
            Err(_) => unreachable!(),
        }
    }
}

impl Handle {
    ghost use Rattle.std.specs.Prelude.{◌≡◌};
    ghost use Rattle.sja_calls.specs.declared.state.State.TheVariants.{Lost};

    /// Lets go of all that the session has in memory.
    pub fn let_go(&mut self)
        ensures { self.new.state ≡ Lost }
    {
        self.state = State::Lost;
    }
}
