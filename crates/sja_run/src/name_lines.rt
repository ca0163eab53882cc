//! The lines that name a file.

ghost use Rattle.std.specs.Prelude.{◌≡◌, false};
ghost use Rattle.std.specs.Io.KnownBytes.{Appends};
ghost use Rattle.sja_run.specs.Files.{name_line, unreadable_line};
ghost use Rattle.sja_run.specs.Names.{shown_name};

use super::names::{byte_at, is_plain, shown_byte};
use sja_program::Output;
use std::io::Write;

/// Writes the line that stands before what is said of the file with this name, if there are several.
pub(crate) fn put_name<W: Write>(writer: &mut Output<W>, several: bool, name: &str)
    ensures { writer.new.failed ≡ false → (writer.old.failed ≡ false)
        × Appends (W.contents writer.old.writer) (W.contents writer.new.writer) (name_line several name.now) }
{
    if several {
        writer.put(b"file ");
        put_shown(writer, name);
        writer.put(b"\n");
    }
}

/// Writes the line of a file with this name that can't be read.
pub(crate) fn put_unreadable<W: Write>(writer: &mut Output<W>, name: &str)
    ensures { writer.new.failed ≡ false → (writer.old.failed ≡ false)
        × Appends (W.contents writer.old.writer) (W.contents writer.new.writer) (unreadable_line name.now) }
{
    writer.put(b"sja: can't read ");
    put_shown(writer, name);
    writer.put(b"\n");
}

/// Writes a name as it is shown.
fn put_shown<W: Write>(writer: &mut Output<W>, name: &str)
    ensures { writer.new.failed ≡ false → (writer.old.failed ≡ false)
        × Appends (W.contents writer.old.writer) (W.contents writer.new.writer) (shown_name name.now) }
{
    if is_plain(name) {
        writer.put(name.as_bytes());
    } else {
        put_escaped(writer, name.as_bytes());
    }
}

/// Writes the bytes of a name as they are shown, one after another.
fn put_escaped<W: Write>(writer: &mut Output<W>, bytes: &[u8])
    ensures { writer.new.failed ≡ false → (writer.old.failed ≡ false)
        × Appends (W.contents writer.old.writer) (W.contents writer.new.writer) (shown_name bytes.now) }
{
    let mut before = 0;
    for place in 0..bytes.len() {
        let byte = bytes[place];
        let (text, count) = shown_byte(before, byte, byte_at(bytes, place + 1));
        writer.put(&text[..count]);
        before = byte;
    }
}
