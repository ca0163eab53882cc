//! Bytes that are too many, or no text.

use super::super::outline::line_at;
use super::super::page::{Page, Piece};
use sja_plan_reading::{MOST_BYTES, most_bytes};

/// What a line of version 3 is without its spaces.
static VERSION_3: &[u8] = b"version=3";

/// Says that the bytes are too many, and where a plan says version 3 that has room for more.
pub(crate) fn too_long(page: &mut Page, bytes: &[u8]) -> bool {
    let most = most_bytes(bytes);
    if bytes.len() <= most {
        return false;
    }
    page.say(
        "the plan has more than {0} bytes, the most that a plan may have",
        &[Piece::Number(most as u64)],
    );
    let more = if most == MOST_BYTES && means_version_3(bytes) {
        "one of version 3 may have 16777216 where \"version = 3\" stands before its other keys, to the byte"
    } else {
        ""
    };
    page.say(more, &[]);
    true
}

/// Whether a line says version 3, whatever its spaces are and whatever is behind it.
fn means_version_3(bytes: &[u8]) -> bool {
    let mut wanted = VERSION_3;
    let mut begins = true;
    for byte in bytes {
        if *byte == b' ' || *byte == b'\t' {
            continue;
        }
        match wanted {
            [first, rest @ ..] if begins && first == byte => wanted = rest,
            _ => begins = false,
        }
        if wanted.is_empty() {
            return true;
        }
        if *byte == b'\n' {
            wanted = VERSION_3;
            begins = true;
        }
    }
    false
}

/// Says which byte is no UTF-8, or that the bytes begin as UTF-16 does.
pub(crate) fn no_text(page: &mut Page, bytes: &[u8]) -> bool {
    let Err(fault) = str::from_utf8(bytes) else {
        return false;
    };
    let place = fault.valid_up_to();
    let byte = bytes.get(place).copied().unwrap_or(0);
    let (wrong, right) = if bytes.starts_with(b"\xff\xfe") || bytes.starts_with(b"\xfe\xff") {
        (
            "the plan begins as UTF-16 does (ff fe or fe ff), and is read as UTF-8",
            "save it as UTF-8",
        )
    } else {
        (
            "{0}byte {1} is no UTF-8",
            "save the plan as UTF-8, or write that character in ASCII",
        )
    };
    let line = Piece::Line(Some(line_at(bytes, place)));
    page.say(wrong, &[line, Piece::Byte(byte)]);
    page.say(right, &[])
}
