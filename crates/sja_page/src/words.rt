//! The words of a command line in one row of bytes.

ghost use Rattle.std.specs.Prelude.{◌≡◌, IfOk, IfSome, IsUtf8, None, map};
ghost use Rattle.sja_page.specs.CommandLines.{AreWords};

use std::alloc::{AllocError, Global};
use std::str;

/// The words that these bytes are, with a 0 between each two; none where they are no text.
pub(crate) fn words_of(alloc: Global, row: &[u8]) -> Result<Option<Vec<&str>>, AllocError>
    ensures words { IfOk result (λ found.
        IfSome found (λ words. AreWords row.now (map (λ word. word.now) words.items))) }
    ensures none { IfOk result (λ found. found ≡ None → ¬ IsUtf8 row.now) }
{
    let Ok(text) = str::from_utf8(row) else {
        return Ok(None);
    };
    let words = pieces_of(alloc, text)?;
    Ok(Some(words))
}

/// The pieces of a text, with a 0 between each two.
fn pieces_of(alloc: Global, text: &str) -> Result<Vec<&str>, AllocError>
    ensures { IfOk result (λ words. AreWords text.now (map (λ word. word.now) words.items)) }
{
    text.split('\0').collect(alloc)
}
