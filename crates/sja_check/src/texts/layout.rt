//! Bytes that are no message: which byte is wrong, and what it has to be.

use super::super::page::{Page, Piece};
use can_frame::LayoutFault;

/// Says why bytes with this fault are no message (SJA1000 data sheet, 6.4.13 and 6.4.14). `{0}` is byte 0, `{1}` the
/// last byte of the identifier, `{2}` the DLC, `{3}` and `{4}` are how many bytes there have to be and are.
pub(crate) fn layout_words(page: &mut Page, bytes: &[u8], fault: LayoutFault) -> bool {
    let first = byte_at(bytes, 0);
    let (before, last) = if first < 0x80 { (3, 2) } else { (5, 4) };
    let dlc = first % 16;
    let data = if first & 0x40 != 0 { 0 } else { dlc.min(8) };
    let template = if bytes.is_empty() {
        "a message has 3 to 13 bytes: \"load 000000\""
    } else {
        template_of(fault, first)
    };
    page.say(
        template,
        &[
            Piece::Byte(first),
            Piece::Byte(byte_at(bytes, last)),
            Piece::Number(u64::from(dlc)),
            Piece::Number(u64::from(before + data)),
            Piece::Number(bytes.len() as u64),
        ],
    )
}

/// The byte of this number; 0 where there are fewer.
fn byte_at(bytes: &[u8], number: usize) -> u8 {
    bytes.get(number).copied().unwrap_or(0)
}

/// What is said of bytes with this fault that begin so.
fn template_of(fault: LayoutFault, first: u8) -> &'static str {
    let is_standard = first < 0x80;
    match fault {
        LayoutFault::Short | LayoutFault::Long => size_template(is_standard, first & 0x40 != 0),
        LayoutFault::UnusedBit if first & 0x30 != 0 =>
            "byte 0 is {0}: its bits 5 and 4 aren't used, and have to be 0",
        LayoutFault::UnusedBit if is_standard =>
            "byte 2 is {1}: in a standard frame its bits 3 to 0 have to be 0",
        LayoutFault::UnusedBit =>
            "byte 4 is {1}: in an extended frame its bits 1 and 0 have to be 0",
        LayoutFault::RtrDisagrees if is_standard =>
            "RTR stands twice, and has to be the same: bit 6 of byte 0, {0}, and bit 4 of byte 2, {1}",
        LayoutFault::RtrDisagrees =>
            "RTR stands twice, and has to be the same: bit 6 of byte 0, {0}, and bit 2 of byte 4, {1}",
    }
}

/// What is said where there are more bytes or fewer, in a frame of this format and kind.
fn size_template(is_standard: bool, is_remote: bool) -> &'static str {
    match (is_standard, is_remote) {
        (true, false) =>
            "byte 0 is {0}, a standard frame with DLC {2}: it has {3} bytes, and here are {4}",
        (true, true) =>
            "byte 0 is {0}, a standard remote frame with DLC {2}: it has {3} bytes, and here are {4}",
        (false, false) =>
            "byte 0 is {0}, an extended frame with DLC {2}: it has {3} bytes, and here are {4}",
        (false, true) =>
            "byte 0 is {0}, an extended remote frame with DLC {2}: it has {3} bytes, and here are {4}",
    }
}
