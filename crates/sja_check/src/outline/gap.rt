//! [`Gap`]: what an abridged document leaves out.

/// What was left out before a byte of an abridged document.
#[derive(Clone, Copy)]
pub(crate) struct Gap {
    /// Before which byte, counted from 0.
    pub(crate) place: usize,
    /// How many line feeds.
    pub(crate) lines: usize,
    /// How many texts of a list.
    pub(crate) texts: usize,
}

/// How many lines were left out up to the byte at this place.
pub(crate) fn lines_before(gaps: &[Gap], place: usize) -> usize {
    let mut lines = 0usize;
    for gap in gaps {
        if gap.place <= place {
            lines = lines.saturating_add(gap.lines);
        }
    }
    lines
}

/// How many texts were left out behind one byte and up to another.
pub(crate) fn texts_between(gaps: &[Gap], open: usize, place: usize) -> usize {
    let mut texts = 0usize;
    for gap in gaps {
        if open < gap.place && gap.place <= place {
            texts = texts.saturating_add(gap.texts);
        }
    }
    texts
}
