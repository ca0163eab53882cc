//! The numbers of a program in C.

ghost use Rattle.std.specs.Prelude.{◌≡◌, ◌≤◌, ◌<◌, IfSome, IfNone, length};
ghost use Rattle.sja_calls.specs.Calls.{watched_in};

use sja_session::Session;

/// The number of a node as a byte. None where it is past 255, and so no session has that node; whether this one has
/// another, its calls say.
pub(crate) fn node_in(session: &Session, number: u32) -> Option<u8>
    ensures some { IfSome result (λ node. node ≡ number) }
    ensures none { IfNone result (length session.now.plan.nodes ≤ number) }
{
    // Asked for what holds of every session: it has few nodes.
    let _ = session.nodes();
    match u8::try_from(number) {
        Ok(node) => Some(node),
        Err(_) => None,
    }
}

/// A number as a byte: 255 where it is past that.
pub(crate) fn byte_of(number: u32) -> u8
    ensures same { number ≤ 255 → result ≡ number }
    ensures past { 255 < number → result ≡ 255 }
    ensures below { result < 255 → result ≡ number }
{
    match u8::try_from(number) {
        Ok(byte) => byte,
        Err(_) => 255,
    }
}

/// Which nodes a mask watches: node K where bit K is 1.
pub(crate) fn watched_by(mask: u32) -> [bool; 8]
    ensures { result ≡ watched_in mask }
{
    [
        mask / 1 % 2 == 1,
        mask / 2 % 2 == 1,
        mask / 4 % 2 == 1,
        mask / 8 % 2 == 1,
        mask / 16 % 2 == 1,
        mask / 32 % 2 == 1,
        mask / 64 % 2 == 1,
        mask / 128 % 2 == 1,
    ]
}
