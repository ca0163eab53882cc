//! The lines of a text below a row.

use std::alloc::{AllocError, Global};

/// The lines of a text as they stand below a row: each on a line of its own, behind `> `.
pub fn marked(alloc: Global, text: &str) -> Result<String, AllocError> {
    let mut whole = String::new(alloc);
    for line in text.lines() {
        whole.push_str("\n> ")?;
        whole.push_str(line)?;
    }
    Ok(whole)
}
