//! The DLC in a text: behind the `R` of a remote frame, and behind a `_`.

ghost use Rattle.std.specs.Prelude.{◌≡◌, ◌≢◌, ◌<◌, ◌++◌, ℕ, IfSome, IfNone, min};
ghost use Rattle.can_notation.specs.Digits.{capital, capitals, digit_of};
ghost use Rattle.can_notation.specs.Text.{count_text, long_dlc_text};

use super::digit::value_of;

/// The DLC of a remote frame, from what stands behind the `R`.
pub(crate) fn remote_dlc(behind: &[u8]) -> Option<u8>
    ensures some { IfSome result (λ dlc. (dlc < 16)
        × (capitals behind.now ≡ count_text (min dlc 8) ++ long_dlc_text dlc)) }
    ensures none { IfNone result ((dlc : ℕ) → dlc < 16
        → capitals behind.now ≢ count_text (min dlc 8) ++ long_dlc_text dlc) }
{
    match behind.len() {
        0 => Some(0),
        1 => short_dlc(behind[0]),
        3 if behind[0] == b'8' => long_dlc(&behind[1..]),
        _ => None,
    }
}

/// The DLC of 1 to 8 that a digit says.
fn short_dlc(digit: u8) -> Option<u8>
    ensures some { IfSome result (λ dlc. (0 < dlc) × (dlc < 9) × (capital digit ≡ digit_of dlc)) }
    ensures none { IfNone result ((dlc : ℕ) → 0 < dlc → dlc < 9 → capital digit ≢ digit_of dlc) }
{
    let dlc = value_of(digit)?;
    if 0 < dlc && dlc < 9 { Some(dlc) } else { None }
}

/// The DLC of 9 to 15 that `_` and a digit say.
pub(crate) fn long_dlc(text: &[u8]) -> Option<u8>
    ensures some { IfSome result (λ dlc. (8 < dlc) × (dlc < 16) × (capitals text.now ≡ long_dlc_text dlc)) }
    ensures none { IfNone result ((dlc : ℕ) → 8 < dlc → dlc < 16 → capitals text.now ≢ long_dlc_text dlc) }
{
    if text.len() != 2 || text[0] != b'_' {
        return None;
    }
    let dlc = value_of(text[1])?;
    if dlc > 8 { Some(dlc) } else { None }
}
