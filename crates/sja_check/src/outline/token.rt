//! [`Token`]: a piece of a document.

/// A piece of a document: its first byte, which says what it is, and from which byte to before which one it stands,
/// counted from 0. A piece is a line feed, a bracket, a brace, `=`, `,`, `.`, a text in quotes, these included, or a
/// bare word. Blanks and comments are no pieces. A document has a piece for each byte at worst, so a piece is small.
#[derive(Clone, Copy)]
pub(crate) struct Token {
    pub(crate) first: u8,
    start: u32,
    end: u32,
}

impl Token {
    /// The piece from one byte to before another of a document, which has fewer than 2 ^ 32.
    pub(crate) fn new(first: u8, start: usize, end: usize) -> Token {
        Token {
            first,
            start: u32::try_from(start).unwrap_or(u32::MAX),
            end: u32::try_from(end).unwrap_or(u32::MAX),
        }
    }

    /// The byte at which it begins.
    pub(crate) fn start(&self) -> usize {
        self.start as usize
    }

    /// Whether it is this key, bare or in quotes. Escapes aren't resolved.
    pub(crate) fn says(&self, bytes: &[u8], key: &str) -> bool {
        self.text(bytes) == key.as_bytes()
    }

    /// What is written there, without its quotes.
    pub(crate) fn text<'a>(&self, bytes: &'a [u8]) -> &'a [u8] {
        let said = bytes.get(self.start()..self.end as usize).unwrap_or(&[]);
        match said {
            [b'"' | b'\'', inside @ .., _] => inside,
            _ => said,
        }
    }
}
