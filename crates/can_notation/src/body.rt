//! The data bytes in a text, with their DLC.

ghost use Rattle.std.specs.Prelude.{◌≡◌, ◌≢◌, ◌≤◌, ◌<◌, ◌++◌, ℕ, List, IfSome, IfNone, All, length, min, false};
ghost use Rattle.can_notation.specs.Digits.{capitals};
ghost use Rattle.can_notation.specs.Text.{data_text, rest_text};
ghost use Rattle.can_notation.specs.Rest.{IsRest};

use super::digits::number_of;
use super::remote::long_dlc;
use arrayvec::ArrayVec;
use can_frame::DATA_BYTES;

/// How many characters 8 data bytes and a DLC above 8 have.
const LONG_TEXT: usize = 18;

/// DLC and data bytes of a data frame, from what stands behind the `#`.
pub(crate) fn data(behind: &[u8]) -> Option<(u8, ArrayVec<u8, DATA_BYTES>)>
    ensures some { IfSome result (λ d. IsRest false d.0 d.1.items
        × (capitals behind.now ≡ rest_text false d.0 d.1.items)) }
    ensures none { IfNone result ((dlc : ℕ) (bytes : List ℕ) → IsRest false dlc bytes
        → capitals behind.now ≢ rest_text false dlc bytes) }
{
    if behind.len() == LONG_TEXT {
        let bytes = data_bytes(&behind[..16])?;
        let dlc = long_dlc(&behind[16..])?;
        return Some((dlc, bytes));
    }
    let bytes = data_bytes(behind)?;
    Some((bytes.len() as u8, bytes))
}

/// At most 8 data bytes, two digits each.
fn data_bytes(digits: &[u8]) -> Option<ArrayVec<u8, DATA_BYTES>>
    ensures some { IfSome result (λ bytes. (length bytes.items ≤ 8) × All (λ byte. byte < 256) bytes.items
        × (capitals digits.now ≡ data_text bytes.items)) }
    ensures none { IfNone result ((bytes : List ℕ) → length bytes ≤ 8 → All (λ byte. byte < 256) bytes
        → capitals digits.now ≢ data_text bytes) }
{
    if digits.len() % 2 != 0 || digits.len() > 16 {
        return None;
    }
    let mut bytes = ArrayVec::new();
    for i in 0..digits.len() / 2 {
        bytes.push(number_of(&digits[2 * i..2 * i + 2])? as u8);
    }
    Some(bytes)
}
