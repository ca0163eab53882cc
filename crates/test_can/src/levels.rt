//! The levels of texts, and the lines of messages.

use super::hexadecimal::frame_of;
use can_bits::line_of;
use can_levels::Level;
use std::alloc::{AllocError, Global};

/// Adds the levels of a text, 0 dominant and 1 recessive; blanks only part them.
pub fn push_text(levels: &mut Vec<Level>, text: &str) -> Result<(), AllocError> {
    for digit in text.as_bytes() {
        if *digit != b' ' {
            levels.push(Level::of(*digit == b'1'))?;
        }
    }
    Ok(())
}

/// The levels of a text.
pub fn levels_of(alloc: Global, text: &str) -> Result<Vec<Level>, AllocError> {
    let mut levels = Vec::new(alloc);
    push_text(&mut levels, text)?;
    Ok(levels)
}

/// The line of the frame of a message; none where the word writes none, or memory is refused.
pub fn line_of_message(alloc: Global, word: &str) -> Option<Vec<Level>> {
    line_of(alloc, &frame_of(word)?).ok()
}

/// The level that a digit writes, if it does.
pub fn level_of(digit: &str) -> Option<Level> {
    match digit {
        "0" => Some(Level::Dominant),
        "1" => Some(Level::Recessive),
        _ => None,
    }
}

/// The digit of a level.
pub fn digit(level: Level) -> &'static str {
    match level {
        Level::Dominant => "0",
        Level::Recessive => "1",
    }
}
