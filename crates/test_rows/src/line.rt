//! [`Line`]: a text that is put together, for which memory may be refused.

use std::alloc::{AllocError, Global};

/// A text that is put together.
#[derive(Drop)]
pub struct Line {
    text: String,
    /// Memory was refused, so something is missing.
    refused: bool,
}

impl Line {
    /// Nothing yet.
    pub fn new(alloc: Global) -> Line {
        Line {
            text: String::new(alloc),
            refused: false,
        }
    }

    /// The whole text, or that memory was refused.
    pub fn text(self) -> Result<String, AllocError> {
        if self.refused {
            Err(AllocError)
        } else {
            Ok(self.text)
        }
    }

    /// Memory was refused.
    pub fn refuse(&mut self) {
        self.refused = true;
    }

    /// Goes on with a part.
    pub fn join(&mut self, part: &str) {
        if self.text.push_str(part).is_err() {
            self.refuse();
        }
    }

    /// Goes on with a part that was made, where there was memory for it.
    pub fn join_made(&mut self, made: Option<String>) {
        match made {
            Some(part) => self.join(part.as_str()),
            None => self.refuse(),
        }
    }
}
