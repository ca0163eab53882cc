//! [`RefusalWatch`]: a writer that knows whether it was told of a refused plan.

use std::io::{Result, Write};

/// How the line of a refused plan begins.
const BEGINS: &[u8] = b"sja: plan fault ";

/// What is known of the bytes that were written.
#[derive(Clone, Copy)]
struct Written {
    /// How many there were, as far as the line's beginning goes; none where one of them is another.
    begun: Option<usize>,
    /// How many line feeds there were.
    lines: usize,
}

impl Written {
    /// Takes in bytes that were written.
    fn take_all(&mut self, bytes: &[u8]) {
        for byte in bytes {
            self.take(*byte);
        }
    }

    /// Takes in one.
    fn take(&mut self, byte: u8) {
        if byte == b'\n' {
            self.lines = self.lines.saturating_add(1);
        }
        if let Some(place) = self.begun {
            match BEGINS.get(place) {
                Some(due) if *due == byte => self.begun = Some(place.saturating_add(1)),
                Some(_) => self.begun = None,
                None => {}
            }
        }
    }
}

/// A writer, and what is known of the bytes that were written.
#[derive(Drop)]
pub(crate) struct RefusalWatch<W: Write> {
    writer: W,
    written: Written,
}

impl<W: Write> RefusalWatch<W> {
    /// A writer to which nothing was written.
    pub(crate) fn new(writer: W) -> RefusalWatch<W> {
        RefusalWatch {
            writer,
            written: Written {
                begun: Some(0),
                lines: 0,
            },
        }
    }

    /// Whether one line was written, that of a refused plan: without words that explain it.
    pub(crate) fn is_unexplained(&self) -> bool {
        self.written.lines == 1 && self.written.begun == Some(BEGINS.len())
    }
}

impl<W: Write> Write for RefusalWatch<W> {
    ghost contents = { λ w. W.contents w.writer };

    fn write(&mut self, buf: &[u8]) -> Result<usize> {
        let count = self.writer.write(buf)?;
        self.written.take_all(buf.get(..count).unwrap_or(&[]));
        Ok(count)
    }

    fn flush(&mut self) -> Result<()> {
        self.writer.flush()
    }
}
