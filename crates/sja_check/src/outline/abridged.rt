//! [`Abridged`]: a long document without what no wrong key needs.

use super::gap::Gap;
use super::pieces::end_of_piece;
use std::alloc::{AllocError, Global};

/// A document without its comments and its empty lines, and of texts that follow one another in a list without all but
/// the first and the last. It has the same keys and lists, with items of the same kinds, so the same keys are wrong.
#[derive(Drop)]
pub(crate) struct Abridged {
    bytes: Vec<u8>,
    /// What was left out, in order.
    gaps: Vec<Gap>,
    /// Where the text begins, in the document, that is left out if a further one follows it.
    held: Option<usize>,
    /// How the last piece begins that is no line feed, blank or comment.
    before: u8,
    /// Whether that piece, or the one before it where it is a comma, is a text of a list.
    is_run: bool,
}

impl Abridged {
    /// The document that these bytes are, abridged; its beginning where more than so many bytes are left.
    ///
    /// Error: memory was refused.
    pub(crate) fn of(alloc: Global, bytes: &[u8], most: usize) -> Result<Abridged, AllocError> {
        let bytes = bytes.strip_prefix(b"\xef\xbb\xbf").unwrap_or(bytes);
        let mut abridged = Abridged::new(alloc);
        let mut end = 0;
        for (start, first) in bytes.iter().enumerate() {
            let first = *first;
            if abridged.bytes.len() > most {
                return Ok(abridged);
            }
            if start >= end {
                end = end_of_piece(bytes, start, first);
                abridged.take(bytes, start, end, first)?;
            }
        }
        abridged.release(bytes, bytes.len())?;
        Ok(abridged)
    }

    /// Its bytes, and what was left out of them, in order.
    pub(crate) fn into_parts(self) -> (Vec<u8>, Vec<Gap>) {
        (self.bytes, self.gaps)
    }

    /// Before the first piece.
    fn new(alloc: Global) -> Abridged {
        Abridged {
            bytes: Vec::new(alloc),
            gaps: Vec::new(alloc),
            held: None,
            before: b'\n',
            is_run: false,
        }
    }

    /// Takes in the piece from one byte to before another, which begins so.
    ///
    /// Error: memory was refused.
    fn take(
        &mut self,
        bytes: &[u8],
        start: usize,
        end: usize,
        first: u8,
    ) -> Result<(), AllocError> {
        if b" \t\r#\n".contains(&first) {
            return self.take_blank(first);
        }
        let is_item = (first == b'"' || first == b'\'')
            && (self.before == b'[' || self.before == b',');
        if is_item && self.is_run {
            self.leave_out(bytes, start)?;
            self.held = Some(start);
        } else if first != b',' || self.held.is_none() {
            self.release(bytes, start)?;
            self.copy(bytes, start, end)?;
        }
        self.is_run = is_item || (first == b',' && self.is_run);
        self.before = first;
        Ok(())
    }

    /// Takes in a blank, a comment, or a line feed: that of an empty line is left out. Behind a text that is held they
    /// go with it.
    ///
    /// Error: memory was refused.
    fn take_blank(&mut self, first: u8) -> Result<(), AllocError> {
        if self.held.is_some() || first == b'#' {
            return Ok(());
        }
        let is_begun = !matches!(self.bytes.as_slice().last(), Some(b'\n'));
        if is_begun {
            self.bytes.push(first)?;
        } else if first == b'\n' {
            self.add_gap(1, 0)?;
        }
        Ok(())
    }

    /// Leaves out what is held, where something is, up to this byte.
    ///
    /// Error: memory was refused.
    fn leave_out(&mut self, bytes: &[u8], end: usize) -> Result<(), AllocError> {
        let Some(start) = self.held else {
            return Ok(());
        };
        let mut lines = 0usize;
        for byte in bytes.get(start..end).unwrap_or(&[]) {
            if *byte == b'\n' {
                lines = lines.saturating_add(1);
            }
        }
        self.add_gap(lines, 1)
    }

    /// Writes what is held, where something is, up to this byte.
    ///
    /// Error: memory was refused.
    fn release(&mut self, bytes: &[u8], end: usize) -> Result<(), AllocError> {
        match self.held {
            Some(start) => {
                self.held = None;
                self.copy(bytes, start, end)
            }
            None => Ok(()),
        }
    }

    /// Writes the bytes from one to before another.
    ///
    /// Error: memory was refused.
    fn copy(&mut self, bytes: &[u8], start: usize, end: usize) -> Result<(), AllocError> {
        self.bytes
            .extend_from_slice(bytes.get(start..end).unwrap_or(&[]))
    }

    /// Notes that so many lines and texts are left out here.
    ///
    /// Error: memory was refused.
    fn add_gap(&mut self, lines: usize, texts: usize) -> Result<(), AllocError> {
        let place = self.bytes.len();
        if let Some(last) = self.gaps.as_mut_slice().last_mut() {
            if last.place == place {
                last.lines = last.lines.saturating_add(lines);
                last.texts = last.texts.saturating_add(texts);
                return Ok(());
            }
        }
        self.gaps.push(Gap {
            place,
            lines,
            texts,
        })?;
        Ok(())
    }
}
