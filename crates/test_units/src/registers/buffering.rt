//! The transmit buffer, whatever its bytes are.

use can_frame::{Frame, Message};
use std::test::Fail;

/// Thirteen bytes that begin so, and are 0 after it.
fn begun(bytes: &[u8]) -> [u8; 13] {
    let mut buffer = [0; 13];
    for (place, byte) in buffer.iter_mut().zip(bytes) {
        *place = *byte;
    }
    buffer
}

/// A buffer begins with the first bytes, and the frame in it has the second bytes as its message.
type Row = (&'static [u8], &'static [u8]);

/// Unused bits and the second remote bit are ignored, and so are bytes after the frame.
fn rows() -> [Row; 7] {
    [
        (&[], &[0, 0, 0]),
        (
            &[0x02, 0x24, 0x60, 0x11, 0x22],
            &[0x02, 0x24, 0x60, 0x11, 0x22],
        ),
        (
            &[0x32, 0x24, 0x7f, 0x11, 0x22, 0x33],
            &[0x02, 0x24, 0x60, 0x11, 0x22],
        ),
        (&[0x42, 0x24, 0x60, 0x11], &[0x42, 0x24, 0x70]),
        (
            &[0xb1, 0x12, 0x34, 0x56, 0x7f, 0xaa],
            &[0x81, 0x12, 0x34, 0x56, 0x78, 0xaa],
        ),
        (
            &[0xc0, 0x12, 0x34, 0x56, 0x78],
            &[0xc0, 0x12, 0x34, 0x56, 0x7c],
        ),
        (
            &[0x8f, 0xff, 0xff, 0xff, 0xff, 1, 2, 3, 4, 5, 6, 7, 8],
            &[0x8f, 0xff, 0xff, 0xff, 0xf8, 1, 2, 3, 4, 5, 6, 7, 8],
        ),
    ]
}

#[test]
fn a_buffer_of_any_content_has_a_frame(rt: HostRuntime) -> Result<(), Fail> {
    for (bytes, want) in rows() {
        let frame = Frame::in_buffer(&begun(bytes));
        let message = Message::from_bytes(want)?;
        assert!(rt; Message::of(&frame) == message.copy());
        assert!(rt; message.buffer() == begun(want));
        assert!(rt; Frame::in_buffer(&message.buffer()) == message.frame());
    }
    Ok(())
}
