//! [`Outline`]: in which line each key, node and text of a plan's document stands.

use super::super::kind::Kind;
use super::entry::Entry;
use super::gap::{Gap, lines_before, texts_between};
use super::line::line_at;
use super::pieces::{depth_behind, end_of_piece};
use super::spot::Spot;
use super::token::Token;
use std::alloc::{AllocError, Global};

/// A document with its pieces, its keys, and at which pieces the headers of nodes have their names.
#[derive(Drop)]
pub(crate) struct Outline {
    pub(super) bytes: Vec<u8>,
    pub(super) tokens: Vec<Token>,
    pub(super) entries: Vec<Entry>,
    pub(super) headers: Vec<usize>,
    /// What was left out, where the document is an abridged one.
    pub(super) gaps: Vec<Gap>,
}

impl Outline {
    /// The outline of a document that isn't read yet.
    pub(crate) fn new(alloc: Global) -> Outline {
        Outline {
            bytes: Vec::new(alloc),
            tokens: Vec::new(alloc),
            entries: Vec::new(alloc),
            headers: Vec::new(alloc),
            gaps: Vec::new(alloc),
        }
    }

    /// The outline of a document of which this key alone is looked at.
    ///
    /// Error: memory was refused.
    pub(crate) fn of_key(alloc: Global, bytes: &[u8], key: Token) -> Result<Outline, AllocError> {
        let mut outline = Outline::new(alloc);
        outline.bytes.extend_from_slice(bytes)?;
        outline.tokens.push(key)?;
        outline.entries.push(Entry {
            node: None,
            key: 0,
            value: None,
        })?;
        Ok(outline)
    }

    /// Reads the document, which is an abridged one where it has gaps.
    ///
    /// Error: memory was refused.
    pub(crate) fn read(&mut self, bytes: &[u8], gaps: Vec<Gap>) -> Result<(), AllocError> {
        self.gaps = gaps;
        let bytes = bytes.strip_prefix(b"\xef\xbb\xbf").unwrap_or(bytes);
        self.read_pieces(bytes)?;
        self.bytes.extend_from_slice(bytes)?;
        self.read_keys()
    }

    /// How many keys begin a line, and names of headers.
    pub(crate) fn keys(&self) -> usize {
        self.entries.len()
    }

    /// The key of this number as it is written, without its quotes; none where it is that of a node.
    pub(crate) fn key_at(&self, number: usize) -> Option<&str> {
        let entry = self.entries.as_slice().get(number)?;
        if entry.node.is_some() {
            return None;
        }
        let token = self.tokens.as_slice().get(entry.key)?;
        str::from_utf8(token.text(self.bytes.as_slice())).ok()
    }

    /// Whether there is a header of a node.
    pub(crate) fn has_header(&self) -> bool {
        !self.headers.is_empty()
    }

    /// The line of this.
    pub(crate) fn line_of(&self, spot: Spot) -> Option<usize> {
        let place = self.place_of(spot)?;
        let start = self.tokens.as_slice().get(place)?.start();
        let left_out = lines_before(self.gaps.as_slice(), start);
        Some(line_at(self.bytes.as_slice(), start).saturating_add(left_out))
    }

    /// How many texts of the list that this one is of were left out before it.
    pub(crate) fn texts_left_out(&self, kind: Kind, number: usize) -> usize {
        let open = self.list(kind);
        match (
            self.start_of(open),
            self.start_of(self.item(open, number, None)),
        ) {
            (Some(open), Some(place)) => texts_between(self.gaps.as_slice(), open, place),
            _ => 0,
        }
    }

    /// Finds the pieces of the document.
    ///
    /// Error: memory was refused.
    fn read_pieces(&mut self, bytes: &[u8]) -> Result<(), AllocError> {
        let mut end = 0;
        for (start, first) in bytes.iter().enumerate() {
            let first = *first;
            if start >= end {
                end = end_of_piece(bytes, start, first);
                if !b" \t\r#".contains(&first) {
                    self.tokens.push(Token::new(first, start, end))?;
                }
            }
        }
        Ok(())
    }

    /// Finds the keys of the document: those that begin a line, and the names of headers.
    ///
    /// Error: memory was refused.
    fn read_keys(&mut self) -> Result<(), AllocError> {
        let mut depth = 0usize;
        let mut begins = true;
        let mut is_known = true;
        let mut node = None;
        for place in 0..self.tokens.len() {
            let first = self.first_at(place);
            if begins && first == b'[' {
                let behind = place.saturating_add(1);
                let name = behind.saturating_add(usize::from(self.first_at(behind) == b'['));
                self.entries.push(Entry {
                    node: None,
                    key: name,
                    value: None,
                })?;
                is_known = self.says(name, "node");
                if is_known {
                    node = Some(self.headers.len());
                    self.headers.push(name)?;
                }
            } else if begins && is_known && first != b'\n' {
                let value = self.value_behind(place);
                self.entries.push(Entry {
                    node,
                    key: place,
                    value,
                })?;
            }
            depth = depth_behind(depth, first);
            begins = first == b'\n' && depth == 0;
        }
        Ok(())
    }
}
