//! The transmit buffer: the frame in it, whatever its bytes are, and the buffer with a message in it.

ghost use Rattle.std.specs.Prelude.{◌≡◌};
ghost use Rattle.can_frame.specs.Frame.{IsFrame};
ghost use Rattle.can_frame.specs.Message.{message};
ghost use Rattle.can_frame.specs.Buffer.{frame_in, buffer_of};

use super::frame::{Frame, data_count};
use super::layout::{EXTENDED_HEAD, STANDARD_HEAD, said_dlc, said_ext, said_rtr};
use super::message::{Message, extended_id, standard_id};

impl Frame {
    /// The frame in a transmit buffer of any content (SJA1000 data sheet, 6.4.13): format, kind and DLC are
    /// those of byte 0, and the identifier stands by the format. Bits that the layout doesn't use are ignored, and so
    /// is the second RTR bit (this project's own rule).
    pub fn in_buffer(buffer: &[u8; 13]) -> Frame
        ensures valid { IsFrame result }
        ensures value { result ≡ frame_in buffer.now }
    {
        let first = buffer[0];
        let (ext, rtr, dlc) = (said_ext(first), said_rtr(first), said_dlc(first));
        let (id, head) = if ext {
            (extended_id(buffer), EXTENDED_HEAD)
        } else {
            (standard_id(buffer), STANDARD_HEAD)
        };
        let data = &buffer[head..head + data_count(rtr, dlc)];
        match Frame::new(ext, id, rtr, dlc, data) {
            Ok(frame) => frame,
            Err(_) => unreachable!(),
        }
    }
}

impl Message {
    /// The transmit buffer with this message at its beginning, and 0 in the bytes after it. The frame in it is this
    /// message's.
    pub fn buffer(&self) -> [u8; 13]
        ensures value { result ≡ buffer_of self.now }
        ensures frame { message (frame_in result) ≡ self.now }
    {
        let mut buffer = [0; 13];
        let bytes = self.bytes.as_slice();
        buffer[..bytes.len()].copy_from_slice(bytes);
        buffer
    }
}
