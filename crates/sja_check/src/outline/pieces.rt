//! The pieces of a document.

/// Before which byte the piece ends that begins at this one with this byte.
pub(crate) fn end_of_piece(bytes: &[u8], start: usize, first: u8) -> usize {
    if first == b'"' || first == b'\'' {
        return end_of_text(bytes, start, first);
    }
    for place in start.saturating_add(1)..bytes.len() {
        if !goes_on(first, bytes[place]) {
            return place;
        }
    }
    bytes.len()
}

/// Whether a piece that begins with one byte goes on with another: a comment to the end of its line, a bare word to
/// its end, and nothing else.
fn goes_on(first: u8, byte: u8) -> bool {
    match first {
        b'#' => byte != b'\n',
        _ => is_bare(first) && is_bare(byte),
    }
}

/// Whether a byte is of a bare word.
fn is_bare(byte: u8) -> bool {
    !b" \t\r\n#\"'[]{}=,.".contains(&byte)
}

/// The end of a text: behind the quote, or the three quotes, that end it, or before the line feed that comes first.
fn end_of_text(bytes: &[u8], start: usize, quote: u8) -> usize {
    let is_long = is_triple(bytes, start, quote);
    let mut escapes = false;
    for place in start.saturating_add(if is_long { 3 } else { 1 })..bytes.len() {
        let byte = bytes[place];
        if byte == b'\n' && !is_long {
            return place;
        }
        if byte == quote && !escapes && ends(bytes, place, quote, is_long) {
            let end = place.saturating_add(if is_long { 3 } else { 1 });
            return end.min(bytes.len());
        }
        escapes = byte == b'\\' && quote == b'"' && !escapes;
    }
    bytes.len()
}

/// Whether the quote at this place ends a text: in a long one three stand there, and no fourth.
fn ends(bytes: &[u8], place: usize, quote: u8, is_long: bool) -> bool {
    !is_long
        || (is_triple(bytes, place, quote) && bytes.get(place.saturating_add(3)) != Some(&quote))
}

/// Whether three of these quotes stand here.
fn is_triple(bytes: &[u8], place: usize, quote: u8) -> bool {
    bytes.get(place..place.saturating_add(3)) == Some([quote; 3].as_slice())
}

/// How many brackets and braces are open behind a piece that begins so.
pub(crate) fn depth_behind(depth: usize, first: u8) -> usize {
    match first {
        b'[' | b'{' => depth.saturating_add(1),
        b']' | b'}' => depth.saturating_sub(1),
        _ => depth,
    }
}
