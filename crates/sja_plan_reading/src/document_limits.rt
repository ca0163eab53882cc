//! The limits of a plan's document and of the numbers in its texts. Each is this project's own rule.

ghost use Rattle.std.specs.Prelude.{◌≡◌, ◌≤◌, take};
ghost use Rattle.sja_plan_reading.specs.DocumentLimits.{begins_by_bytes, most_bytes};

use super::comments::behind_comments;

/// How many bytes a plan's document has at most (this project's own rule), where [`BY_BYTES_LINE`] doesn't stand before
/// all other keys.
pub const MOST_BYTES: usize = 65_536;

/// The line of a document of version 3 that may be longer (this project's own rule). Blank lines and comments alone
/// stand before it, and with them it has at most [`MOST_BYTES`].
pub const BY_BYTES_LINE: &[u8] = b"version = 3\n";

/// How many bytes a document has at most in which [`BY_BYTES_LINE`] stands so (this project's own rule).
pub const MOST_BYTES_BY_BYTES: usize = 16_777_216;

/// The last version of the rules that a plan's document can ask for; the first one is 1 (this project's own rule).
pub const LAST_VERSION: u32 = 3;

/// How many digits a number in the text of a step, a turn or a strike has at most (this project's own rule).
pub const MOST_DIGITS: usize = 7;

/// The greatest number that so many digits spell (this project's own rule).
pub const GREATEST_NUMBER: u32 = 9_999_999;

/// How many bytes a document that begins so has at most.
pub fn most_bytes(bytes: &[u8]) -> usize
    ensures value { result ≡ most_bytes bytes.now }
    ensures few { result ≤ 16777216 }
{
    if begins_by_bytes(bytes) {
        MOST_BYTES_BY_BYTES
    } else {
        MOST_BYTES
    }
}

/// Whether [`BY_BYTES_LINE`] stands before all other keys, with no more than blank lines and comments before it.
#[tactic(auto, unfolding(crate::specs::DocumentLimits::begins_by_bytes))]
fn begins_by_bytes(bytes: &[u8]) -> bool
    ensures { result ≡ begins_by_bytes bytes.now }
{
    behind_comments(head_of(bytes)).starts_with(BY_BYTES_LINE)
}

/// The first bytes, as many as a document has at most in which that line doesn't stand so.
fn head_of(bytes: &[u8]) -> &[u8]
    ensures { result.now ≡ take 65536 bytes.now }
{
    if bytes.len() <= MOST_BYTES {
        bytes
    } else {
        &bytes[..MOST_BYTES]
    }
}
