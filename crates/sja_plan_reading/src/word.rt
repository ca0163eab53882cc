//! The words of a text, and what a word spells.

ghost use Rattle.std.specs.Prelude.{◌≡◌, ◌≤◌, ◌<◌, ℕ, IfOk, IfSome, IfErr, OnOk, map};
ghost use Rattle.sja_plan_reading.specs.Words.{words, number_of, SpellsWithin, SpellsNode, SpellsByte};

use super::document_limits::{GREATEST_NUMBER, MOST_DIGITS};
use super::text_fault::TextFault;
use std::alloc::AllocError;

/// The words of a text, what stands between its spaces, in the place of those that were found before
/// (this project's own rule).
///
/// Error: `AllocError` where memory was refused.
pub fn find_words<'a>(found: &mut Vec<&'a str>, text: &'a str) -> Result<(), AllocError>
    ensures { OnOk result (map (λ w. w.now) found.new.items ≡ words text.entry.now) }
{
    found.clear();
    let mut rest = text;
    while let Some((word, behind)) = rest.split_once(' ') {
        found.push(word)?;
        rest = behind;
    }
    found.push(rest)?;
    Ok(())
}

/// The number that a word spells with one to seven digits.
pub(crate) fn number(word: &str) -> Option<u32>
    ensures value { result ≡ number_of word.now }
    ensures small { IfSome result (λ n. n < 10000000) }
{
    if word.len() > MOST_DIGITS || word.starts_with('+') {
        return None;
    }
    word.parse::<u32>().ok()
}

/// The number from `least` to `most` that a word spells with one to seven decimal digits (this project's own rule).
///
/// Error: [`TextFault::Bad`] where it spells none of these.
pub fn number_within(word: &str, least: u32, most: u32) -> Result<u32, TextFault>
    ensures ok { IfOk result (λ n. SpellsWithin least most word.now n) }
    ensures err { IfErr result (λ e. (e ≡ TextFault.Bad) × ((n : ℕ) → ¬ SpellsWithin least most word.now n)) }
{
    match number(word) {
        Some(n) if least <= n && n <= most => Ok(n),
        _ => Err(TextFault::Bad),
    }
}

/// The number of a node, of so many, that a word spells in decimal, counted from 0 (this project's own rule).
///
/// Error: [`TextFault::Bad`] where it spells none of these.
pub fn node_within(nodes: usize, word: &str) -> Result<u8, TextFault>
    requires { nodes ≤ 8 }
    ensures ok { IfOk result (λ n. SpellsNode nodes word.now n) }
    ensures err { IfErr result (λ e. (e ≡ TextFault.Bad) × ((n : ℕ) → ¬ SpellsNode nodes word.now n)) }
{
    let node = number_within(word, 0, GREATEST_NUMBER)?;
    if node as usize >= nodes {
        return Err(TextFault::Bad);
    }
    Ok(node as u8)
}

/// The byte that a word spells with two hexadecimal digits (this project's own rule).
///
/// Error: [`TextFault::Bad`] where it spells none.
pub fn byte(word: &str) -> Result<u8, TextFault>
    ensures ok { IfOk result (λ b. SpellsByte word.now b) }
    ensures err { IfErr result (λ e. (e ≡ TextFault.Bad) × ((b : ℕ) → ¬ SpellsByte word.now b)) }
{
    match <[u8; 1] as hex::FromHex>::from_hex(word) {
        Ok(bytes) => Ok(bytes[0]),
        Err(_) => Err(TextFault::Bad),
    }
}
