//! What a place, and bits up to one, are answered.

ghost use Rattle.sja_live.specs.Inside.Standing.{IsAnswered};
ghost use Rattle.sja_live.specs.declared.live_command.LiveCommand.TheVariants.{To, PlaceOf};

use super::exhausted::Exhausted;
use super::line_fault::LineFault;
use super::live_answer::LiveAnswer;
use sja_plan::Place;
use sja_session::{PlaceRefusal, Session};

/// What bits up to a place of a node are answered.
pub(crate) fn run_to(session: &mut Session, node: u8, place: Place, limit: u32) -> LiveAnswer
    ensures { IsAnswered session.old session.new (To node place limit) result }
{
    match session.to_place(node, place, limit) {
        Ok(reached) if reached.there => LiveAnswer::Ran(reached.bits),
        Ok(reached) => LiveAnswer::Spent(reached.bits),
        Err(PlaceRefusal::NoNode) => LiveAnswer::Mistaken(LineFault::Node),
        Err(PlaceRefusal::TurnsUsed) => LiveAnswer::Full(Exhausted::Turns),
    }
}

/// What the place of a node is answered.
pub(crate) fn place_told(session: &Session, node: u8) -> LiveAnswer
    ensures { IsAnswered session.now session.now (PlaceOf node) result }
{
    match session.place(node) {
        Some(place) => LiveAnswer::At(place),
        None => LiveAnswer::Nothing,
    }
}
