//! [`KeyReader`]: which pieces of a document are keys, piece after piece.

use super::pieces::{depth_behind, end_of_piece};
use super::token::Token;

/// The first key above all headers, or name of a header, that isn't among these. Nothing is kept of the others.
pub(crate) fn first_unknown(bytes: &[u8], known: &[&str]) -> Option<Token> {
    let mut reader = KeyReader::new();
    let mut end = 0;
    for (start, first) in bytes.iter().enumerate() {
        let first = *first;
        if start >= end {
            end = end_of_piece(bytes, start, first);
            let token = Token::new(first, start, end);
            if !b" \t\r#".contains(&first) && reader.take(first) && !is_among(bytes, token, known) {
                return Some(token);
            }
        }
    }
    None
}

/// How many headers have the name of the nodes.
pub(crate) fn nodes_in(bytes: &[u8]) -> usize {
    let mut reader = KeyReader::new();
    let mut end = 0;
    let mut nodes = 0usize;
    for (start, first) in bytes.iter().enumerate() {
        let first = *first;
        if start >= end {
            end = end_of_piece(bytes, start, first);
            let token = Token::new(first, start, end);
            if !b" \t\r#".contains(&first)
                && reader.take(first)
                && !reader.is_above
                && is_among(bytes, token, &["node"])
            {
                nodes = nodes.saturating_add(1);
            }
        }
    }
    nodes
}

/// Whether a piece is one of these keys.
fn is_among(bytes: &[u8], token: Token, known: &[&str]) -> bool {
    known.iter().any(|key| token.says(bytes, key))
}

/// What is known of a document behind some of its pieces.
#[derive(Clone, Copy)]
struct KeyReader {
    /// How many brackets and braces are open.
    depth: usize,
    /// Whether a line begins, with none of them open.
    begins: bool,
    /// Whether no header has come yet.
    is_above: bool,
    /// How many brackets of a header have come, of which the name hasn't.
    brackets: u8,
}

impl KeyReader {
    /// Before the first piece.
    fn new() -> KeyReader {
        KeyReader {
            depth: 0,
            begins: true,
            is_above: true,
            brackets: 0,
        }
    }

    /// Takes in a piece that begins so. Whether it is a key above all headers, or the name of a header.
    fn take(&mut self, first: u8) -> bool {
        let opens = first == b'[';
        let is_name = self.brackets == 2 || (self.brackets == 1 && !opens);
        let is_key = self.begins && self.is_above && !opens && first != b'\n';
        self.brackets = match self.brackets {
            0 if self.begins && opens => 1,
            1 if opens => 2,
            _ => 0,
        };
        self.is_above = self.is_above && self.brackets == 0;
        self.depth = depth_behind(self.depth, first);
        self.begins = first == b'\n' && self.depth == 0;
        is_name || is_key
    }
}
