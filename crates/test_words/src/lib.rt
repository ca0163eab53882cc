//! Words in rows of text, for the tests over controllers: bytes, addresses, names of things, messages, steps
//! ([`step_of`]), what they answer ([`AnswerText`]), and a bit of the bus ([`turn_of`]).
//!
//! Beside them stand links of the tests' own, which give an item back ([`Returning`]).
#![tactic(auto)]

mod answer_text;
mod returning;
mod step;
mod turn;

pub use answer_text::{AnswerText, Bytes};
pub use returning::Returning;
use sja_regs::address::{
    ACR0, ALC, AMR0, BUFFER, CMR, ECC, EWLR, IER, IR, MOD, RMC, RXERR, SR, TXERR,
};
pub use step::{message_of, step_of};
pub use turn::turn_of;

/// The names of registers, with their addresses (SJA1000 data sheet, 6.4.1, address allocation).
const NAMES: [(&str, u8); 19] = [
    ("MOD", MOD),
    ("CMR", CMR),
    ("SR", SR),
    ("IR", IR),
    ("IER", IER),
    ("ALC", ALC),
    ("ECC", ECC),
    ("EWLR", EWLR),
    ("RXERR", RXERR),
    ("TXERR", TXERR),
    ("ACR0", ACR0),
    ("AMR0", AMR0),
    ("BUFFER", BUFFER),
    ("RMC", RMC),
    ("BTR0", 6),
    ("BTR1", 7),
    ("OCR", 8),
    ("RBSA", 30),
    ("CDR", 31),
];

/// What stands under this name in a table.
pub fn named<T: Copy>(table: &[(&str, T)], name: &str) -> Option<T> {
    for (known, item) in table {
        if *known == name {
            return Some(*item);
        }
    }
    None
}

/// The byte that a word of hexadecimal digits is.
pub fn byte(word: &str) -> Option<u8> {
    u8::from_str_radix(word, 16).ok()
}

/// The address that a word is: the name of a register, or a byte.
pub fn address(word: &str) -> Option<u8> {
    named(&NAMES, word).or(byte(word))
}

/// The bytes that words are, and 0 after them.
pub fn bytes(words: &[&str]) -> Option<[u8; 13]> {
    let mut whole = [0; 13];
    for (place, word) in whole.iter_mut().zip(words) {
        *place = byte(word)?;
    }
    Some(whole)
}
