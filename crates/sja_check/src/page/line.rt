//! [`Line`]: a line that is written from a template.

use super::super::lines::LINE_CHARACTERS;
use super::piece::Piece;
use sja_steps::Refusal;
use std::alloc::{AllocError, Global};

/// How many characters of a value are shown at least, however long what stands about it is (this project's own rule).
const LEAST_SHOWN: usize = 8;

/// A line that is written from a template: `{0}` to `{9}` are gaps for the pieces, and `<` and `>` stand about a value,
/// which is shown in quotes. The value is cut, with `..` at its end, where the line would have more than 100
/// characters. A character that isn't printable ASCII is shown as TOML escapes it.
#[derive(Drop)]
pub(crate) struct Line {
    pub(crate) text: String,
    pub(crate) refused: bool,
    alloc: Global,
    in_quotes: bool,
    /// How many characters the value has so far.
    shown: usize,
    /// How many of them there is room for.
    room: usize,
}

impl Line {
    /// An empty line.
    pub(crate) fn new(alloc: Global) -> Line {
        Line {
            text: String::new(alloc),
            refused: false,
            alloc,
            in_quotes: false,
            shown: 0,
            room: LINE_CHARACTERS,
        }
    }

    /// Writes a template with pieces in its gaps, once more with less room where its value has to be cut.
    pub(crate) fn fill(&mut self, template: &str, pieces: &[Piece]) {
        self.write(template, pieces);
        let value = self.shown.min(LINE_CHARACTERS);
        let about = self.text.len().saturating_sub(value);
        let room = LINE_CHARACTERS.saturating_sub(about).max(LEAST_SHOWN);
        if self.shown > room {
            self.room = room.saturating_sub(2);
            self.shown = 0;
            self.text.clear();
            self.write(template, pieces);
        }
    }

    /// Writes a template with pieces in its gaps.
    fn write(&mut self, template: &str, pieces: &[Piece]) {
        let mut is_gap = false;
        for character in template.chars() {
            match character {
                '<' => self.open(),
                '>' => self.close(),
                '{' | '}' => is_gap = character == '{',
                _ if is_gap => self.gap(character, pieces),
                _ => self.put(character),
            }
        }
    }

    /// Fills the gap of this digit.
    fn gap(&mut self, digit: char, pieces: &[Piece]) {
        let place = digit.to_digit(10).unwrap_or(0);
        if let Some(piece) = pieces.get(place as usize) {
            self.piece(*piece);
        }
    }

    /// Writes a piece.
    fn piece(&mut self, piece: Piece) {
        match piece {
            Piece::Text(text) => self.text(text),
            Piece::Character(character) => self.character(character),
            Piece::Words(before, words, behind) => self.words(before, words, behind),
            Piece::Number(number) => self.number("", number, ""),
            Piece::Whole(number) => {
                let sign = if number < 0 { "-" } else { "" };
                self.number(sign, number.unsigned_abs(), "");
            }
            Piece::Byte(byte) => self.digits(u32::from(byte), 2),
            Piece::Bytes(bytes) => self.bytes(bytes),
            Piece::Line(Some(line)) => self.number("line ", line as u64, ": "),
            Piece::Line(None) => {}
            Piece::Shown(None) => self.text("it"),
            Piece::Shown(Some(text)) => {
                self.open();
                self.text(text);
                self.close();
            }
            Piece::Refused(refusal) => self.refusal(refusal),
        }
    }

    /// Writes a number between two texts.
    fn number(&mut self, before: &str, number: u64, behind: &str) {
        self.text(before);
        let alloc = self.alloc;
        self.formed(format!(in alloc; "{number}"));
        self.text(behind);
    }

    /// Writes why a step was refused.
    fn refusal(&mut self, refusal: Refusal) {
        let alloc = self.alloc;
        self.formed(format!(in alloc; "{refusal}"));
    }

    /// Writes words, each between two texts.
    fn words(&mut self, before: &str, words: &[&str], behind: &str) {
        for word in words {
            self.text(before);
            self.text(word);
            self.text(behind);
        }
    }

    /// Writes bytes.
    fn bytes(&mut self, bytes: &[u8]) {
        for byte in bytes {
            self.digits(u32::from(*byte), 2);
        }
    }

    /// Writes a text that was formed, where memory for it was there.
    fn formed(&mut self, text: Result<String, AllocError>) {
        match text {
            Ok(text) => self.text(text.as_str()),
            Err(_) => self.refused = true,
        }
    }

    /// Writes a text.
    fn text(&mut self, text: &str) {
        for character in text.chars() {
            self.character(character);
        }
    }

    /// Writes a character as TOML escapes it.
    fn character(&mut self, character: char) {
        let code = character as u32;
        if 32 <= code && code <= 126 {
            return self.put(character);
        }
        self.put('\\');
        match character {
            '\t' => self.put('t'),
            '\n' => self.put('n'),
            '\r' => self.put('r'),
            _ if code < 0x10000 => {
                self.put('u');
                self.digits(code, 4);
            }
            _ => {
                self.put('U');
                self.digits(code, 8);
            }
        }
    }

    /// Writes the last so many hexadecimal digits of a number.
    fn digits(&mut self, number: u32, count: u32) {
        let mut left = count;
        for _ in 0..count {
            left = left.saturating_sub(1).min(7);
            let digit = (number >> (left * 4)) & 0xf;
            self.put(char::from_digit(digit, 16).unwrap_or('0'));
        }
    }

    /// Begins a value.
    fn open(&mut self) {
        self.put('"');
        self.in_quotes = true;
    }

    /// Ends a value.
    fn close(&mut self) {
        self.in_quotes = false;
        if self.room < LINE_CHARACTERS {
            self.put('.');
            self.put('.');
        }
        self.put('"');
    }

    /// Writes a character, where there is room for it.
    fn put(&mut self, character: char) {
        if self.in_quotes {
            self.shown = self.shown.saturating_add(1);
            if self.shown > self.room {
                return;
            }
        }
        if self.text.push(character).is_err() {
            self.refused = true;
        }
    }
}
