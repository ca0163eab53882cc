//! Two texts that are put into one room.

ghost use Rattle.sja_page.specs.Answers.{Puts};

use super::answer::PageAnswer;
use super::outcome::Outcome;

/// Puts what was printed and behind it what was told into a room, whose further bytes stay. Where they don't fit, the
/// room stays as it was.
pub(crate) fn put_texts(status: u8, printed: &[u8], told: &[u8], room: &mut [u8]) -> PageAnswer
    ensures { Puts status printed.now told.now room.old room.new result }
{
    let fits = printed.len() <= room.len() && told.len() <= room.len() - printed.len();
    if fits {
        let (first, others) = room.split_at_mut(printed.len());
        first.copy_from_slice(printed);
        others[..told.len()].copy_from_slice(told);
    }
    let outcome = if fits {
        Outcome::Ended(status)
    } else {
        Outcome::NoRoom
    };
    PageAnswer {
        status: outcome.status(),
        printed: printed.len() as u64,
        told: told.len() as u64,
    }
}
