//! Numbers of several hexadecimal digits, written and read.

ghost use Rattle.std.specs.Prelude.{◌≡◌, ◌≢◌, ◌<◌, ◌≤◌, ◌+◌, ◌^◌, ◌++◌, ℕ, IfSome, IfNone, length};
ghost use Rattle.arrayvec.specs.ArrayVec.{array_vec_len};
ghost use Rattle.can_notation.specs.Digits.{digits_of, capitals};

use super::digit::{digit_of, value_of};
use arrayvec::ArrayVec;

/// How many characters a text has at most: 8 of an identifier, `#`, 16 of the data and 2 of a DLC above 8.
pub const TEXT_BYTES: usize = 27;

/// Writes the last digit of a number behind a text.
#[inline]
fn push_digit(text: &mut ArrayVec<u8, TEXT_BYTES>, n: u32)
    requires { array_vec_len text.old < 27 }
    ensures items { text.new.items ≡ text.old.items ++ digits_of 1 n }
    ensures len { array_vec_len text.new ≡ array_vec_len text.old + 1 }
{
    text.push(digit_of((n & 0x0f) as u8));
}

/// Writes the last two digits of a number behind a text.
#[inline]
pub(crate) fn push_pair(text: &mut ArrayVec<u8, TEXT_BYTES>, n: u32)
    requires { array_vec_len text.old < 26 }
    ensures items { text.new.items ≡ text.old.items ++ digits_of 2 n }
    ensures len { array_vec_len text.new ≡ array_vec_len text.old + 2 }
{
    push_digit(text, n >> 4);
    push_digit(text, n);
}

/// Writes the last three digits of a number behind a text.
#[tactic(auto, using(crate::proofs::DigitLemmas::three_digits))]
pub(crate) fn push_three(text: &mut ArrayVec<u8, TEXT_BYTES>, n: u32)
    requires { array_vec_len text.old < 25 }
    ensures items { text.new.items ≡ text.old.items ++ digits_of 3 n }
    ensures len { array_vec_len text.new ≡ array_vec_len text.old + 3 }
{
    push_digit(text, n >> 8);
    push_pair(text, n);
}

/// Writes the last eight digits of a number behind a text.
#[tactic(auto, using(crate::proofs::DigitLemmas::eight_digits))]
pub(crate) fn push_eight(text: &mut ArrayVec<u8, TEXT_BYTES>, n: u32)
    requires { array_vec_len text.old < 20 }
    ensures items { text.new.items ≡ text.old.items ++ digits_of 8 n }
    ensures len { array_vec_len text.new ≡ array_vec_len text.old + 8 }
{
    push_pair(text, n >> 24);
    push_pair(text, n >> 16);
    push_pair(text, n >> 8);
    push_pair(text, n);
}

/// The number of at most 8 digits, in either case.
pub(crate) fn number_of(digits: &[u8]) -> Option<u32>
    requires { length digits.now ≤ 8 }
    ensures some { IfSome result (λ n. (n < 16 ^ length digits.now)
        × (capitals digits.now ≡ digits_of (length digits.now) n)) }
    ensures none { IfNone result ((n : ℕ) → capitals digits.now ≢ digits_of (length digits.now) n) }
{
    let mut n = 0;
    for digit in digits {
        n = n * 16 + u32::from(value_of(*digit)?);
    }
    Some(n)
}
