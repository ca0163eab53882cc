//! A text that is put into the room of a program in C.

ghost use Rattle.std.specs.Prelude.{◌≡◌, IfOk, IfErr, OnErr};
ghost use Rattle.sja_calls.specs.Inside.Rooms.{IsLackOfRoom};
ghost use Rattle.sja_calls.specs.Texts.{Puts};

use super::call_fault::CallFault;

/// Puts a text and a NUL into a room, whose further bytes stay. It gives the length without the NUL.
///
/// Error: [`CallFault::NoRoom`], with the size that it needs, and the room stays as it was.
pub(crate) fn put_text(text: &[u8], room: &mut [u8]) -> Result<usize, CallFault>
    ensures puts { IfOk result (Puts text.now room.old room.new) }
    ensures err { IfErr result (IsLackOfRoom text.now room.old) }
    ensures kept { OnErr result (room.new ≡ room.old) }
{
    let length = text.len();
    if room.len() <= length {
        return Err(CallFault::NoRoom(length + 1));
    }
    room[..length].copy_from_slice(text);
    room[length] = 0;
    Ok(length)
}
