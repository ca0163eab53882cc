//! What is said of two lists of messages.

ghost use Rattle.std.specs.Prelude.{◌≡◌, ◌++◌, ◌<◌, [], length, codes, string_bytes, if◌then◌else◌, OnOk};
ghost use Rattle.sja_sweep.specs.Messages.{message_at, message_item, is_more, more_items, moved_items, order_item};
ghost use Rattle.sja_sweep.specs.Messages.{list_items};

use super::messages::{is_more, is_reordered};
use can_frame::Message;
use std::alloc::{AllocError, Global};
use text_report::put_bytes;

/// All that is said of the two lists: what they are of, and which messages are more, less, or in another order.
pub(crate) fn put_list(
    alloc: Global,
    text: &mut String,
    of: &str,
    without: &[Message],
    now: &[Message],
) -> Result<(), AllocError>
    ensures { OnOk result (string_bytes text.new ≡ string_bytes text.old ++ list_items of.now without.now now.now) }
{
    let mut moved = String::new(alloc);
    put_moved(&mut moved, of, without, now)?;
    text.push_str(moved.as_str())?;
    put_order(text, of, moved.as_str(), without, now)
}

/// The messages that are more with the strike, and those that are less.
fn put_moved(
    text: &mut String,
    of: &str,
    without: &[Message],
    now: &[Message],
) -> Result<(), AllocError>
    ensures { OnOk result (string_bytes text.new ≡ string_bytes text.old ++ moved_items of.now without.now now.now) }
{
    put_more(text, of, " more", now, without)?;
    put_more(text, of, " less", without, now)
}

/// The order, where no message is more or less.
fn put_order(
    text: &mut String,
    of: &str,
    moved: &str,
    without: &[Message],
    now: &[Message],
) -> Result<(), AllocError>
    ensures { OnOk result (string_bytes text.new ≡ string_bytes text.old
        ++ order_item of.now moved.now without.now now.now) }
{
    if moved.is_empty() && is_reordered(without, now) {
        text.push_str(of)?;
        text.push_str(" in another order")?;
    }
    Ok(())
}

/// Each message that a list has more often than another.
fn put_more(
    text: &mut String,
    of: &str,
    word: &str,
    list: &[Message],
    other: &[Message],
) -> Result<(), AllocError>
    ensures { OnOk result (string_bytes text.new ≡ string_bytes text.old
        ++ more_items of.now word.now list.now other.now) }
{
    for place in 0..list.len() {
        put_if_more(text, of, word, list, other, place)?;
    }
    Ok(())
}

/// The message at a place, if it is more there.
fn put_if_more(
    text: &mut String,
    of: &str,
    word: &str,
    list: &[Message],
    other: &[Message],
    place: usize,
) -> Result<(), AllocError>
    requires { place < length list.now }
    ensures { OnOk result (string_bytes text.new ≡ string_bytes text.old
        ++ (if is_more list.now other.now place then message_item of.now word.now (message_at list.now place)
        else [])) }
{
    if is_more(list, other, place) {
        put_item(text, of, word, &list[place])?;
    }
    Ok(())
}

/// A message that is more, or less.
fn put_item(text: &mut String, of: &str, word: &str, message: &Message) -> Result<(), AllocError>
    ensures { OnOk result (string_bytes text.new ≡ string_bytes text.old
        ++ message_item of.now word.now message.now) }
{
    text.push_str(of)?;
    text.push_str(word)?;
    put_bytes(text, message)
}
