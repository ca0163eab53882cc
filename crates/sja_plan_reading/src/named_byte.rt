//! Bytes by the names of their bits.

ghost use Rattle.std.specs.Prelude.{◌≡◌, ◌≤◌, if◌then◌else◌, map};
ghost use Rattle.std.specs.List.{list_all, list_any};
ghost use Rattle.std.specs.Str.{str_eq_ignore_ascii_case};
ghost use Rattle.sja_plan_reading.specs.BitNames.{named_byte, byte_of_names, is_among, parts};

use super::register_bits::bit_names;
use super::register_names::is_same_name;

/// The byte whose bits a word names, with bars between them, of the register at an address.
pub(crate) fn named_byte(address: u8, word: &str) -> Option<u8>
    ensures { result ≡ named_byte address word.now }
{
    byte_of_names(word, bit_names(address)?)
}

/// The byte in which the bits of these names are set that a word names, where it names no others.
fn byte_of_names(word: &str, names: &[&str; 8]) -> Option<u8>
    ensures { result ≡ byte_of_names word.now (map (λ name. name.now) names.now) }
{
    if !are_names(word, names) {
        return None;
    }
    let [a, b, c, d, e, f, g, h] = *names;
    let low = bit(word, a, 1) + bit(word, b, 2) + bit(word, c, 4) + bit(word, d, 8);
    let high = bit(word, e, 16) + bit(word, f, 32) + bit(word, g, 64) + bit(word, h, 128);
    Some(low + high)
}

/// What a bit counts where a word names it, and else 0.
fn bit(word: &str, name: &str, worth: u8) -> u8
    ensures value { result ≡ (if is_among (parts word.now) name.now then worth else 0) }
    ensures few { result ≤ worth }
{
    if has(word, name) { worth } else { 0 }
}

/// Whether what stands between the bars of a word is each one of these names, and not empty.
fn are_names(word: &str, names: &[&str; 8]) -> bool
    ensures { result ≡ list_all (is_among (map (λ name. name.now) names.now)) (parts word.now) }
{
    let mut rest = word;
    while let Some((part, behind)) = rest.split_once('|') {
        if !is_name(names, part) {
            return false;
        }
        rest = behind;
    }
    is_name(names, rest)
}

/// Whether this is one of the names, and not empty.
fn is_name(names: &[&str; 8], part: &str) -> bool
    ensures { result ≡ is_among (map (λ name. name.now) names.now) part.now }
{
    !part.is_empty() && is_one_of(names, part)
}

/// Whether this is one of the names.
fn is_one_of(names: &[&str; 8], part: &str) -> bool
    ensures { result ≡ list_any (λ name. str_eq_ignore_ascii_case name part.now) (map (λ name. name.now) names.now) }
{
    for name in names {
        if is_same_name(name, part) {
            return true;
        }
    }
    false
}

/// Whether this name stands between the bars of a word, and isn't empty.
fn has(word: &str, name: &str) -> bool
    ensures { result ≡ is_among (parts word.now) name.now }
{
    !name.is_empty() && has_part(word, name)
}

/// Whether this name stands between the bars of a word.
fn has_part(word: &str, name: &str) -> bool
    ensures { result ≡ list_any (λ part. str_eq_ignore_ascii_case part name.now) (parts word.now) }
{
    let mut rest = word;
    while let Some((part, behind)) = rest.split_once('|') {
        if is_same_name(part, name) {
            return true;
        }
        rest = behind;
    }
    is_same_name(rest, name)
}
