//! The places of the nodes of a session of C, and bits up to one.

ghost use Rattle.std.specs.Prelude.{◌≡◌, ◌<◌, IfOk, IfErr, OnOk, OnErr, List, length};
ghost use Rattle.sja_calls.specs.CallPlaces.{ComesTo, IsAtPlace, IsPlaceFault, IsToFault};

use super::call_fault::CallFault;
use super::handle::Handle;
use super::numbers::node_in;
use super::place_numbers::{number_if, place_of};
use super::state::State;
use sja_session::{PlaceRefusal, Session};

impl Handle {
    ghost use Rattle.std.specs.Prelude.{◌≡◌, IfOk, IfErr, OnErr};
    ghost use Rattle.sja_calls.specs.Calls.{IsRefusal};
    ghost use Rattle.sja_calls.specs.CallPlaces.{ComesToOf, IsAtPlaceOf, IsPlaceFault, IsToFault};

    /// At which place of a frame the next bit of a node, counted from 0, is, as a number of `c/sja.h`: 0 where it is at
    /// none.
    ///
    /// Errors, the first that holds: [`CallFault::Ended`]; [`CallFault::NoNode`].
    pub fn place(&self, node: u32) -> Result<u64, CallFault>
        ensures place { IfOk result (IsAtPlaceOf self.now.state node) }
        ensures err { IfErr result (IsRefusal self.now.state (IsPlaceFault node)) }
    {
        match &self.state {
            State::Going(session) => place_by(session, node),
            State::Ended(_, _) => Err(CallFault::Ended),
            State::Lost => Err(CallFault::Ended),
        }
    }

    /// Runs bits up to the one before which a node's next bit is at the place of this number, so many at most, and as
    /// many as are left. It says whether the node came there.
    ///
    /// Errors, the first that holds, and nothing changed: [`CallFault::Ended`]; [`CallFault::NoPlace`];
    /// [`CallFault::NoNode`]; [`CallFault::TurnsUsed`].
    pub fn to(&mut self, node: u32, place: u32, limit: u32) -> Result<bool, CallFault>
        ensures runs { IfOk result (ComesToOf self.old.state self.new.state node place limit) }
        ensures err { IfErr result (IsRefusal self.old.state (IsToFault node place limit)) }
        ensures kept { OnErr result (self.new ≡ self.old) }
    {
        match &mut self.state {
            State::Going(session) => to_by(session, node, place, limit),
            State::Ended(_, _) => Err(CallFault::Ended),
            State::Lost => Err(CallFault::Ended),
        }
    }
}

/// Tells the place of a node.
fn place_by(session: &Session, node: u32) -> Result<u64, CallFault>
    ensures place { IfOk result (IsAtPlace session.now node) }
    ensures err { IfErr result (IsPlaceFault node session.now) }
{
    let Some(near) = node_in(session, node) else {
        return Err(CallFault::NoNode);
    };
    if usize::from(near) >= session.nodes() {
        return Err(CallFault::NoNode);
    }
    Ok(number_if(session.place(near)))
}

/// Runs bits up to a place.
fn to_by(session: &mut Session, node: u32, place: u32, limit: u32) -> Result<bool, CallFault>
    ensures runs { IfOk result (ComesTo session.old session.new node place limit) }
    ensures err { IfErr result (IsToFault node place limit session.old) }
    ensures kept { OnErr result (session.new ≡ session.old) }
{
    let Some(place) = place_of(place) else {
        return Err(CallFault::NoPlace);
    };
    let Some(node) = node_in(session, node) else {
        return Err(CallFault::NoNode);
    };
    match session.to_place(node, place, limit) {
        Ok(reached) => Ok(reached.there),
        Err(PlaceRefusal::NoNode) => Err(CallFault::NoNode),
        Err(PlaceRefusal::TurnsUsed) => Err(CallFault::TurnsUsed),
    }
}
