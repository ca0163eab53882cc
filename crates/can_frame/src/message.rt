//! [`Message`]: a frame in the byte layout of the controller's buffers.

ghost use Rattle.std.specs.Prelude.{◌≡◌, ◌≤◌, ◌↔◌, ◌*◌, ◌/◌, ◌+◌, [], ◌∷◌, ◌++◌, IfOk, length, slice_get, slice_index};
ghost use Rattle.can_frame.specs.Frame.{IsFrame};
ghost use Rattle.can_frame.specs.Message.{message, head_of};
ghost use Rattle.can_frame.specs.Layout.{IsShort, IsLong, IsSized, UnusedAreZero, RtrAgrees};

use super::byte_list::ByteList;
use super::frame::{DATA_BYTES, Frame};
use super::layout::{EXTENDED_HEAD, STANDARD_HEAD, judged, said_dlc, said_ext, said_rtr};
use super::layout_fault::LayoutFault;
use std::marker::Model;

/// How many bytes a message has at most: the head of an extended frame, and its data.
const MESSAGE_BYTES: usize = EXTENDED_HEAD + DATA_BYTES;

/// A frame in the byte layout of the controller's buffers: 3 to 13 bytes (SJA1000 data sheet, 6.4.13 and 6.4.14).
///
/// | Byte | Standard | Extended |
/// |---|---|---|
/// | 0 | bit 7 FF = 0, bit 6 RTR, bits 3 to 0 DLC | bit 7 FF = 1, the rest as left |
/// | 1 | ID.28-21 | ID.28-21 |
/// | 2 | bits 7 to 5 ID.20-18, bit 4 RTR | ID.20-13 |
/// | 3 | data from here | ID.12-5 |
/// | 4 | | bits 7 to 3 ID.4-0, bit 2 RTR |
/// | 5 | | data from here |
///
/// Bits that the table doesn't name are 0. Contracts see a message as the list of its bytes, which is always the
/// message of some frame.
#[derive(Debug, PartialEq, Eq, Drop)]
pub struct Message {
    pub(crate) bytes: ByteList<MESSAGE_BYTES>,
}

impl Model for Message {
    ghost use Rattle.std.specs.Prelude.{List, ℕ};
    ghost use Rattle.can_frame.specs.Message.{IsMessage};

    ghost Value = { List ℕ };

    ghost view = { λ m. m.bytes };

    ghost invariant = { λ m. IsMessage m.bytes };

    ghost inverse = { λ bytes. record { bytes = bytes } };
}

impl Message {
    /// The message of a frame, as the table above has it (SJA1000 data sheet, 6.4.13).
    pub fn of(frame: &Frame) -> Message
        ensures { result ≡ message frame.now }
    {
        Message {
            bytes: head_of(frame).followed_by(frame.bytes()),
        }
    }

    /// The one frame whose message this is.
    pub fn frame(&self) -> Frame
        ensures valid { IsFrame result }
        ensures value { message result ≡ self.now }
    {
        let bytes = self.bytes.as_slice();
        let first = bytes[0];
        let (id, data) = if said_ext(first) {
            (extended_id(bytes), &bytes[EXTENDED_HEAD..])
        } else {
            (standard_id(bytes), &bytes[STANDARD_HEAD..])
        };
        match Frame::new(said_ext(first), id, said_rtr(first), said_dlc(first), data) {
            Ok(frame) => frame,
            Err(_) => unreachable!(),
        }
    }

    /// How many bytes the message has, 3 to 13.
    pub fn len(&self) -> usize
        ensures value { result ≡ length self.now }
        ensures within { (3 ≤ result) × (result ≤ 13) }
    {
        self.bytes.len()
    }

    /// The byte at this place, counted from 0, or nothing past the end.
    pub fn byte(&self, i: usize) -> Option<u8>
        ensures { result ≡ slice_get self.now i }
    {
        self.bytes.as_slice().get(i).copied()
    }

    /// All bytes.
    pub fn bytes(&self) -> &[u8]
        ensures { result.now ≡ self.now }
    {
        self.bytes.as_slice()
    }

    /// The message of these bytes.
    ///
    /// Errors, the first that holds: [`LayoutFault::Short`] for fewer bytes than the first one says, or none;
    /// [`LayoutFault::Long`] for more; [`LayoutFault::UnusedBit`] where a bit is 1 that the layout doesn't use;
    /// [`LayoutFault::RtrDisagrees`] where the two RTR bits differ. Their order is this project's own rule.
    pub fn from_bytes(bytes: &[u8]) -> Result<Message, LayoutFault>
        ensures ok { IfOk result (λ m. m ≡ bytes.now) }
        ensures short { (result ≡ Err LayoutFault.Short) ↔ IsShort bytes.now }
        ensures long { (result ≡ Err LayoutFault.Long) ↔ IsLong bytes.now }
        ensures unused { (result ≡ Err LayoutFault.UnusedBit) ↔ (IsSized bytes.now × ¬ UnusedAreZero bytes.now) }
        ensures rtr { (result ≡ Err LayoutFault.RtrDisagrees)
            ↔ (IsSized bytes.now × UnusedAreZero bytes.now × ¬ RtrAgrees bytes.now) }
    {
        judged(bytes)?;
        Ok(Message {
            bytes: ByteList::of(bytes),
        })
    }

    /// An equal message.
    pub fn copy(&self) -> Message
        ensures { result ≡ self.now }
    {
        Message {
            bytes: self.bytes.copy(),
        }
    }
}

impl Default for Message {
    ghost use Rattle.std.specs.Prelude.{◌≡◌, [], ◌∷◌};

    ghost is_default = { λ m. m ≡ 0 ∷ 0 ∷ 0 ∷ [] };

    /// The standard data frame with identifier 0 and no data, for places that are free.
    fn default() -> Message {
        Message {
            bytes: ByteList::of(&[0, 0, 0]),
        }
    }
}

/// The head of a frame's message: 3 bytes, or 5 where it is extended.
fn head_of(frame: &Frame) -> ByteList<MESSAGE_BYTES>
    ensures { result ≡ head_of frame.now.ext frame.now.id frame.now.rtr frame.now.dlc }
{
    let id = frame.id();
    let rtr = u8::from(frame.rtr());
    if frame.ext() {
        ByteList::of(&[
            128 + (rtr << 6) + frame.dlc(),
            (id >> 21) as u8,
            ((id >> 13) & 0xff) as u8,
            ((id >> 5) & 0xff) as u8,
            (((id & 0x1f) as u8) << 3) + (rtr << 2),
        ])
    } else {
        ByteList::of(&[
            (rtr << 6) + frame.dlc(),
            (id >> 3) as u8,
            (((id & 0x07) as u8) << 5) + (rtr << 4),
        ])
    }
}

/// ID.28 to ID.18, from a standard frame's message.
pub(crate) fn standard_id(bytes: &[u8]) -> u32
    requires { 3 ≤ length bytes.now }
    ensures { result ≡ slice_index bytes.now 1 * 8 + slice_index bytes.now 2 / 32 }
{
    (u32::from(bytes[1]) << 3) + u32::from(bytes[2] >> 5)
}

/// ID.28 to ID.0, from an extended frame's message.
pub(crate) fn extended_id(bytes: &[u8]) -> u32
    requires { 5 ≤ length bytes.now }
    ensures { result ≡ slice_index bytes.now 1 * 2097152 + slice_index bytes.now 2 * 8192 + slice_index bytes.now 3 * 32
        + slice_index bytes.now 4 / 8 }
{
    (u32::from(bytes[1]) << 21)
        + (u32::from(bytes[2]) << 13)
        + (u32::from(bytes[3]) << 5)
        + u32::from(bytes[4] >> 3)
}
