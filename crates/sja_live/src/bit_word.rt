//! The bit that a word spells.

ghost use Rattle.std.specs.Prelude.{◌≡◌, ◌≤◌, ℕ, IfSome, IfNone};
ghost use Rattle.sja_live.specs.Commands.{most_digits, SpellsBit};

/// The bit that a word spells with one to seven decimal digits, in a session without an end with one to nineteen (this
/// project's own rule).
pub(crate) fn bit_of(endless: bool, word: &str) -> Option<u64>
    ensures some { IfSome result (SpellsBit endless word.now) }
    ensures none { IfNone result ((bit : ℕ) → ¬ SpellsBit endless word.now bit) }
{
    if word.len() > most_digits(endless) || word.starts_with('+') {
        return None;
    }
    word.parse::<u64>().ok()
}

/// How many digits spell a bit at most.
fn most_digits(endless: bool) -> usize
    ensures value { result ≡ most_digits endless }
    ensures few { result ≤ 19 }
{
    if endless { 19 } else { 7 }
}
