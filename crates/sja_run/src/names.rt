//! How the names of files are shown.

ghost use Rattle.std.specs.Prelude.{◌≡◌, ◌≤◌, true, take, slice_index};
ghost use Rattle.sja_run.specs.Names.{is_control, are_control, escape, shown_byte, shown_name};

/// How many bytes an escape has.
pub(crate) const ESCAPE: usize = 6;

/// The hexadecimal digits.
const DIGITS: &[u8; 16] = b"0123456789abcdef";

/// Whether a name is shown as it is.
pub(crate) fn is_plain(name: &str) -> bool
    ensures { result ≡ true → shown_name name.now ≡ name.now }
{
    let bytes = name.as_bytes();
    for byte in bytes {
        if is_control(*byte) || *byte == 0xc2 {
            return false;
        }
    }
    true
}

/// What is shown for a byte of a name, behind one byte and before another: the first so many of these bytes.
pub(crate) fn shown_byte(before: u8, byte: u8, next: u8) -> ([u8; ESCAPE], usize)
    ensures text { take result.1 result.0 ≡ shown_byte before byte next }
    ensures few { result.1 ≤ 6 }
{
    if is_control(byte) {
        (escape(byte), ESCAPE)
    } else if are_control(byte, next) {
        (escape(next), ESCAPE)
    } else if are_control(before, byte) {
        ([0; ESCAPE], 0)
    } else {
        ([byte, 0, 0, 0, 0, 0], 1)
    }
}

/// The byte of a name at this place, or 0 past its end.
pub(crate) fn byte_at(bytes: &[u8], place: usize) -> u8
    ensures { result ≡ slice_index bytes.now place }
{
    bytes.get(place).copied().unwrap_or(0)
}

/// Whether a byte is a control character.
fn is_control(byte: u8) -> bool
    ensures { result ≡ is_control byte }
{
    byte < 32 || byte == 127
}

/// Whether these two bytes are one.
fn are_control(one: u8, other: u8) -> bool
    ensures { result ≡ are_control one other }
{
    one == 0xc2 && 0x80 <= other && other <= 0x9f
}

/// The control character of this number as TOML escapes it.
fn escape(code: u8) -> [u8; ESCAPE]
    ensures { result ≡ escape code }
{
    let (high, low) = (usize::from(code / 16), usize::from(code % 16));
    [b'\\', b'u', b'0', b'0', DIGITS[high], DIGITS[low]]
}
