//! One hexadecimal digit, written and read.

ghost use Rattle.std.specs.Prelude.{◌≡◌, ◌≢◌, ◌<◌, ℕ, IfSome, IfNone};
ghost use Rattle.can_notation.specs.Digits.{digit_of, capital};

/// The upper-case digits, by their numbers.
const DIGITS: [u8; 16] = *b"0123456789ABCDEF";

/// The upper-case digit of a number.
#[inline]
pub(crate) fn digit_of(n: u8) -> u8
    requires { n < 16 }
    ensures { result ≡ digit_of n }
{
    DIGITS[usize::from(n)]
}

/// The number that a digit stands for, in either case.
pub(crate) fn value_of(digit: u8) -> Option<u8>
    ensures some { IfSome result (λ n. (n < 16) × (capital digit ≡ digit_of n)) }
    ensures none { IfNone result ((n : ℕ) → n < 16 → capital digit ≢ digit_of n) }
{
    match digit {
        b'0'..=b'9' => Some(digit - b'0'),
        b'A'..=b'F' => Some(digit - b'A' + 10),
        b'a'..=b'f' => Some(digit - b'a' + 10),
        _ => None,
    }
}
