//! Blank lines and comments before the keys of a document.

ghost use Rattle.std.specs.Prelude.{◌≡◌, true, false, slice_index};
ghost use Rattle.toml_parser.specs.Lexical.{skip_blank, skip_turn, is_ws, is_non_eol};

/// What stands behind the blank lines and comments that bytes begin with.
pub(crate) fn behind_comments(bytes: &[u8]) -> &[u8]
    ensures { result.now ≡ skip_blank bytes.now }
{
    let mut inside = false;
    for place in 0..bytes.len() {
        match skip_turn(inside, bytes[place], byte_at(bytes, place + 1)) {
            Some(state) => inside = state,
            None => return &bytes[place..],
        }
    }
    &bytes[bytes.len()..]
}

/// The byte at this place, or 0 past the end.
fn byte_at(bytes: &[u8], place: usize) -> u8
    ensures { result ≡ slice_index bytes.now place }
{
    bytes.get(place).copied().unwrap_or(0)
}

/// Whether a comment has begun behind a byte that a next one follows; nothing where neither a blank nor a comment goes
/// on with it.
fn skip_turn(inside: bool, byte: u8, next: u8) -> Option<bool>
    ensures { result ≡ skip_turn true inside byte next }
{
    if byte == b'\n' || (byte == b'\r' && next == b'\n') {
        Some(false)
    } else if inside && is_non_eol(byte) || !inside && is_ws(byte) {
        Some(inside)
    } else if !inside && byte == b'#' {
        Some(true)
    } else {
        None
    }
}

/// Whether it is a space or a tab.
fn is_ws(byte: u8) -> bool
    ensures { result ≡ is_ws byte }
{
    byte == b' ' || byte == b'\t'
}

/// Whether a comment can hold the byte.
fn is_non_eol(byte: u8) -> bool
    ensures { result ≡ is_non_eol byte }
{
    byte == b'\t' || (byte >= 0x20 && byte != 0x7f)
}
