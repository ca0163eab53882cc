//! What is among the items of a link.

ghost use Rattle.std.specs.Prelude.{◌≡◌, ◌≢◌, true, false, [], ◌∷◌, drop, IfSome, IfNone};
ghost use Rattle.lemmas.specs.Gathering.{total};
ghost use Rattle.sja_journal.specs.Free.{credit_of};
ghost use Rattle.sja_journal.specs.declared.up.Up.TheVariants.{Credit};
ghost use Rattle.sja_journal.specs.Lists.{messages};
ghost use Rattle.sja_link.specs.WorldEvents.{first_credit};
ghost use Rattle.sja_link.specs.World.{is_off, is_start, is_send, is_stop};

use sja_journal::{Down, Up};

/// The bytes that an item gives back.
pub(crate) fn credit_of(item: &Up) -> u8
    ensures { result ≡ credit_of item.now }
{
    match item {
        Up::Credit(bytes) => *bytes,
        _ => 0,
    }
}

/// The credit of the message at this place, where no bus-off is among these items.
pub(crate) fn credit_at(items: &[Down], place: usize) -> Option<u8>
    requires { total is_off items.now ≡ 0 }
    ensures some { IfSome result (λ n. first_credit (drop place (messages items.now)) ≡ Credit n ∷ []) }
    ensures none { IfNone result (drop place (messages items.now) ≡ []) }
{
    if place >= items.len() {
        return None;
    }
    match &items[place] {
        Down::Message(message) => Some(message.len() as u8),
        Down::Off => None,
    }
}

/// Whether a start is among these items.
pub(crate) fn starts(items: &[Up]) -> bool
    ensures yes { result ≡ true → total is_start items.now ≢ 0 }
    ensures no { result ≡ false → total is_start items.now ≡ 0 }
{
    for item in items {
        if let Up::Start(_) = item {
            return true;
        }
    }
    false
}

/// Whether a stop is among these items.
pub(crate) fn stops(items: &[Up]) -> bool
    ensures yes { result ≡ true → total is_stop items.now ≢ 0 }
    ensures no { result ≡ false → total is_stop items.now ≡ 0 }
{
    for item in items {
        if let Up::Stop = item {
            return true;
        }
    }
    false
}

/// Whether a request waits among these items.
pub(crate) fn waits(items: &[Up]) -> bool
    ensures yes { result ≡ true → total is_send items.now ≢ 0 }
    ensures no { result ≡ false → total is_send items.now ≡ 0 }
{
    for item in items {
        if let Up::Send(_) = item {
            return true;
        }
    }
    false
}

/// Whether bus-off is among these items.
pub(crate) fn went_off(items: &[Down]) -> bool
    ensures yes { result ≡ true → total is_off items.now ≢ 0 }
    ensures no { result ≡ false → total is_off items.now ≡ 0 }
{
    for item in items {
        if let Down::Off = item {
            return true;
        }
    }
    false
}
