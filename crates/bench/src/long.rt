//! Long texts.

use std::alloc::{AllocError, Global};

/// So many items, by turns of these, with a comma behind each.
pub fn list(alloc: Global, items: &[&str], count: u32) -> Result<String, AllocError> {
    let mut text = String::new(alloc);
    for item in items.iter().cycle().take(count as usize) {
        text.push_str(item)?;
        text.push_str(",")?;
    }
    Ok(text)
}

/// The text with comment lines behind it, up to this length.
pub fn filled(text: String, length: usize) -> Result<String, AllocError> {
    let mut text = text;
    for _ in 0..length {
        if text.len() >= length {
            break;
        }
        if text.len() % 64 == 63 {
            text.push_str("\n")?;
        } else {
            text.push_str("#")?;
        }
    }
    Ok(text)
}
