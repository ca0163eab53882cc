//! The text of a frame.

ghost use Rattle.std.specs.Prelude.{◌≡◌, ◌<◌, ◌≤◌, ◌+◌, ◌*◌, ◌++◌, All, length, min};
ghost use Rattle.std.specs.Str.{IsAscii};
ghost use Rattle.arrayvec.specs.ArrayVec.{array_vec_len};
ghost use Rattle.can_notation.specs.Text.{data_text, count_text, long_dlc_text, body_text};
ghost use Rattle.can_notation.specs.Text.{identifier_text, text};

use super::digit::digit_of;
use super::digits::{TEXT_BYTES, push_eight, push_pair, push_three};
use arrayvec::ArrayVec;
use can_frame::Frame;

/// The text of a frame, at most 27 characters (can-utils, the notation of `cansend` and `candump -L`).
///
/// The identifier comes first, 3 upper-case hexadecimal digits where it is standard and 8 where it is extended, and
/// then `#`. Behind it stand the data bytes, two digits each, or `R` and the number of bytes that a remote frame asks
/// for, one digit, left out where it is 0. A DLC of 9 to 15 follows as `_` and one digit. Each character is ASCII.
#[tactic(auto, using(crate::proofs::AsciiLemmas::ascii_text))]
pub fn text_of(frame: &Frame) -> ArrayVec<u8, TEXT_BYTES>
    ensures text { result.items ≡ text frame.now }
    ensures ascii { IsAscii result.items }
{
    let mut text = ArrayVec::new();
    push_identifier(&mut text, frame.ext(), frame.id());
    text.push(b'#');
    push_body(&mut text, frame);
    push_long_dlc(&mut text, frame.dlc());
    text
}

/// Writes the identifier.
fn push_identifier(text: &mut ArrayVec<u8, TEXT_BYTES>, ext: bool, id: u32)
    requires { array_vec_len text.old ≡ 0 }
    ensures items { text.new.items ≡ text.old.items ++ identifier_text ext id }
    ensures room { array_vec_len text.new ≤ 8 }
{
    if ext {
        push_eight(text, id);
    } else {
        push_three(text, id);
    }
}

/// Writes what stands for the data.
fn push_body(text: &mut ArrayVec<u8, TEXT_BYTES>, frame: &Frame)
    requires { array_vec_len text.old ≤ 9 }
    ensures items { text.new.items ≡ text.old.items ++ body_text frame.now.rtr frame.now.dlc frame.now.bytes }
    ensures room { array_vec_len text.new ≤ 25 }
{
    if frame.rtr() {
        text.push(b'R');
        push_count(text, frame.dlc().min(8));
    } else {
        push_data(text, frame.bytes());
    }
}

/// Writes data bytes, two digits each.
fn push_data(text: &mut ArrayVec<u8, TEXT_BYTES>, bytes: &[u8])
    requires { array_vec_len text.old + 2 * length bytes.now ≤ 27 }
    ensures items { text.new.items ≡ text.old.items ++ data_text bytes.now }
    ensures len { array_vec_len text.new ≡ array_vec_len text.old + 2 * length bytes.now }
{
    for byte in bytes {
        push_pair(text, u32::from(*byte));
    }
}

/// Writes how many bytes a remote frame asks for, unless that is 0.
fn push_count(text: &mut ArrayVec<u8, TEXT_BYTES>, count: u8)
    requires { (array_vec_len text.old < 27) × (count ≤ 8) }
    ensures { text.new.items ≡ text.old.items ++ count_text count }
{
    if count != 0 {
        text.push(digit_of(count));
    }
}

/// Writes a DLC that the number of bytes doesn't tell.
fn push_long_dlc(text: &mut ArrayVec<u8, TEXT_BYTES>, dlc: u8)
    requires { (array_vec_len text.old ≤ 25) × (dlc < 16) }
    ensures { text.new.items ≡ text.old.items ++ long_dlc_text dlc }
{
    if dlc > 8 {
        text.push(b'_');
        text.push(digit_of(dlc));
    }
}
