//! What bits are answered.

ghost use Rattle.sja_live.specs.Inside.Standing.{IsAnswered};
ghost use Rattle.sja_live.specs.declared.live_command.LiveCommand.TheVariants.{Run, Rest};

use super::exhausted::Exhausted;
use super::live_answer::LiveAnswer;
use sja_session::Session;

/// What bits up to an interrupt are answered.
pub(crate) fn ran(session: &mut Session, count: u32) -> LiveAnswer
    ensures { IsAnswered session.old session.new (Run count) result }
{
    match session.watch(count, [true; 8]) {
        Ok(watched) => match watched.rose {
            Some(_) => LiveAnswer::Rose(watched.bits, session.lines()),
            None if watched.bits < count => LiveAnswer::Spent(watched.bits),
            None => LiveAnswer::Ran(watched.bits),
        },
        Err(_) => LiveAnswer::Full(Exhausted::Turns),
    }
}

/// What bits up to rest are answered.
#[tactic(auto, using(crate::proofs::Replies::Told::not_rest))]
pub(crate) fn rested(session: &mut Session) -> LiveAnswer
    ensures { IsAnswered session.old session.new Rest result }
{
    match session.rest() {
        Ok(rested) if rested.at_rest => LiveAnswer::Ran(rested.bits),
        Ok(rested) => LiveAnswer::Spent(rested.bits),
        Err(_) => LiveAnswer::Full(Exhausted::Turns),
    }
}
