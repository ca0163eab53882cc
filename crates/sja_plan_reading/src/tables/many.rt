//! Whether it is worth while to look at a document before its tables are built.

/// How many times the bytes of a document its tables may take (this project's own rule).
const MOST_TIMES: usize = 20;

/// What a key takes at most in a table of its own, in bytes.
const KEY_BYTES: usize = 1_100;

/// Whether a text has so many signs of keys that its tables may take many times its bytes. No answer hangs on it.
pub(crate) fn has_many_keys(text: &str) -> bool {
    let signs = text
        .as_bytes()
        .iter()
        .filter(|byte| matches!(**byte, b'.' | b'=' | b'['))
        .count();
    signs.saturating_mul(KEY_BYTES) > text.len().saturating_mul(MOST_TIMES)
}
