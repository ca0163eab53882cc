//! Lines and columns of a document.

/// The line of the byte at this place: lines count from 1, and bytes from 0.
pub(crate) fn line_at(bytes: &[u8], place: usize) -> usize {
    let mut line = 1usize;
    for byte in bytes.get(..place).unwrap_or(bytes) {
        if *byte == b'\n' {
            line = line.saturating_add(1);
        }
    }
    line
}

/// The column of the byte at this place: columns count characters of UTF-8, from 1, and bytes from 0.
pub(crate) fn column_at(bytes: &[u8], place: usize) -> usize {
    let mut column = 1usize;
    for byte in bytes.get(..place).unwrap_or(bytes) {
        if *byte == b'\n' {
            column = 1;
        } else if *byte < 0x80 || *byte >= 0xc0 {
            column = column.saturating_add(1);
        }
    }
    column
}
