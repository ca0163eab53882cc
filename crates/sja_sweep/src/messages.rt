//! How often messages stand in lists.

ghost use Rattle.std.specs.Prelude.{◌≡◌, ◌<◌, length};
ghost use Rattle.sja_sweep.specs.Messages.{message_at, times_of, is_more, is_reordered};

use can_frame::Message;

/// Whether the message at a place stands in the list up to there more often than in all of the other list.
pub(crate) fn is_more(list: &[Message], other: &[Message], place: usize) -> bool
    requires { place < length list.now }
    ensures { result ≡ is_more list.now other.now place }
{
    let message = bytes_at(list, place);
    times_of(message, other) < times_of(message, &list[..place + 1])
}

/// How often a message of these bytes stands in a list.
pub(crate) fn times_of(message: &[u8], list: &[Message]) -> usize
    ensures { result ≡ times_of message.now list.now }
{
    list.iter().filter(|other| message == other.bytes()).count()
}

/// Whether another message stands at some place.
pub(crate) fn is_reordered(without: &[Message], now: &[Message]) -> bool
    ensures { result ≡ is_reordered without.now now.now }
{
    for place in 0..now.len() {
        if bytes_at(without, place) != bytes_at(now, place) {
            return true;
        }
    }
    false
}

/// The bytes of the message at a place; none past the end.
fn bytes_at(list: &[Message], place: usize) -> &[u8]
    ensures { result.now ≡ message_at list.now place }
{
    if place < list.len() {
        list[place].bytes()
    } else {
        &[]
    }
}
