//! For how many strikes texts count.

ghost use Rattle.std.specs.Prelude.{◌≡◌, ◌<◌, ◌≤◌, [], ◌∷◌, nat_le, map, unwrap_or, if◌then◌else◌};
ghost use Rattle.std.specs.Prelude.{IfOk, IfSome};
ghost use Rattle.sja_plan_reading.specs.StrikeTexts.{strike_count, count_of, strikes_in};

use super::word::{find_words, number};
use std::alloc::{AllocError, Global};

/// Whether these texts count for at most so many strikes.
pub(crate) fn strikes_are_few(alloc: Global, texts: &[&str], most: u32) -> Result<bool, AllocError>
    requires { most ≤ 100000 }
    ensures { IfOk result (λ few. few ≡ nat_le (strikes_in (map (λ t. t.now) texts.now)) most) }
{
    let mut room = Vec::new(alloc);
    let mut total = 0u32;
    for text in texts {
        match count_of(&mut room, text) {
            Ok(count) => total += count,
            Err(error) => return Err(error),
        }
        if total > most {
            return Ok(false);
        }
    }
    Ok(true)
}

/// For how many strikes a text counts. Its words are left in `room`.
fn count_of<'a>(room: &mut Vec<&'a str>, text: &'a str) -> Result<u32, AllocError>
    ensures value { IfOk result (λ n. n ≡ count_of text.entry.now) }
    ensures small { IfOk result (λ n. n < 10000000) }
{
    find_words(room, text)?;
    Ok(strike_count(room.as_slice()))
}

/// For how many strikes words count.
fn strike_count(words: &[&str]) -> u32
    ensures value { result ≡ strike_count (map (λ w. w.now) words.now) }
    ensures small { result < 10000000 }
{
    match *words {
        [node, bit, every, times] => last_of(node, bit, every, times),
        _ => 1,
    }
}

/// The last of four numbers, where each word spells one, and else 1.
fn last_of(node: &str, bit: &str, every: &str, times: &str) -> u32
    ensures value { result ≡ strike_count (node.now ∷ bit.now ∷ every.now ∷ times.now ∷ []) }
    ensures small { result < 10000000 }
{
    match (number(node), number(bit), number(every), number(times)) {
        (Some(_), Some(_), Some(_), Some(times)) => times,
        _ => 1,
    }
}
