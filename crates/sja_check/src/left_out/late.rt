//! Strikes past the last bit of a run.

use super::super::document::Document;
use super::super::kind::Kind;
use super::super::page::{Page, Piece};
use super::super::texts::are_placed;
use sja_steps::Strike;
use std::alloc::{AllocError, Global};
use toml::Value;

/// Says which strikes strike a bit past the last one of a run of so many bits.
pub(crate) fn late_strikes(page: &mut Page, document: &Document, strikes: &[Strike], bits: u32) {
    let mut items = Vec::new(page.alloc);
    match by_bits(page.alloc, document.values(Kind::Strike)) {
        Ok(found) => items = found,
        Err(_) => page.refused = true,
    }
    for (place, strike) in strikes.iter().enumerate() {
        let came = times_below(strike, bits);
        let (template, [first, second]) = if came >= strike.times {
            ("", [0, 0])
        } else if strike.times == 1 {
            (
                "{0}strike {1}: {2}: bit {4} didn't come, the run has {6} bits",
                [strike.bit, 0],
            )
        } else {
            let told = [came as u64, strike.times as u64];
            (
                "{0}strike {1}: {2}: {4} of its {5} bits came, the run has {6} bits",
                told,
            )
        };
        let (first, second) = (Piece::Number(first), Piece::Number(second));
        let told = [first, second, Piece::Number(u64::from(bits))];
        let item = match items.get(place) {
            Some(item) => *item,
            None => usize::MAX,
        };
        document.say(page, (Kind::Strike, item), template, told);
    }
}

/// Where the texts of strikes by bits stand among those of all strikes.
///
/// Error: [`AllocError`] where memory was refused.
fn by_bits(alloc: Global, values: &[Value]) -> Result<Vec<usize>, AllocError> {
    let mut items = Vec::new(alloc);
    for (item, value) in values.iter().enumerate() {
        if !is_placed(alloc, value)? {
            items.push(item)?;
        }
    }
    Ok(items)
}

/// Whether the text of a strike names a place.
///
/// Error: [`AllocError`] where memory was refused.
fn is_placed(alloc: Global, value: &Value) -> Result<bool, AllocError> {
    let Value::String(text) = value else {
        return Ok(false);
    };
    let words: Result<Vec<&str>, AllocError> = text.as_str().split(' ').collect(alloc);
    Ok(are_placed(words?.as_slice()))
}

/// How many bits it strikes below this one.
fn times_below(strike: &Strike, bits: u32) -> u32 {
    let bits = bits as u64;
    if bits <= strike.bit {
        return 0;
    }
    if strike.every == 0 {
        return strike.times;
    }
    let more = (bits - strike.bit - 1) / (strike.every as u64);
    more.saturating_add(1).min(strike.times as u64) as u32
}
