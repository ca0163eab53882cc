//! [`Page`]: the lines that are said.

mod line;
mod piece;

use super::lines::MOST_HINTS;
use line::Line;
pub(crate) use piece::Piece;
use std::alloc::Global;

/// The lines that are said of a plan. Where memory is refused, that is kept, and nothing more is to be said.
#[derive(Drop)]
pub(crate) struct Page {
    pub(crate) alloc: Global,
    pub(crate) lines: Vec<String>,
    pub(crate) refused: bool,
}

impl Page {
    /// A page without a line.
    pub(crate) fn new(alloc: Global) -> Page {
        Page {
            alloc,
            lines: Vec::new(alloc),
            refused: false,
        }
    }

    /// Adds a line: the template, with the pieces in its gaps (`Line`). Past the lines that may be written out an empty
    /// one counts each. It is true where something is said: an empty template says nothing.
    pub(crate) fn say(&mut self, template: &str, pieces: &[Piece]) -> bool {
        if template.is_empty() {
            return false;
        }
        let mut line = Line::new(self.alloc);
        if !self.is_full() {
            line.fill(template, pieces);
        }
        self.refused = self.refused || line.refused;
        if self.lines.push(line.text).is_err() {
            self.refused = true;
        }
        true
    }

    /// Whether there are more lines than are written out.
    pub(crate) fn is_full(&self) -> bool {
        self.lines.len() > MOST_HINTS
    }

    /// Says how many lines there are past those that are written out, in their place.
    pub(crate) fn cut(&mut self) {
        let more = self.lines.len().saturating_sub(MOST_HINTS);
        if more > 0 {
            self.lines.truncate(MOST_HINTS);
            self.say("and {0} more", &[Piece::Number(more as u64)]);
        }
    }

    /// Keeps that memory was refused.
    pub(crate) fn refuse(&mut self) -> bool {
        self.refused = true;
        true
    }
}
