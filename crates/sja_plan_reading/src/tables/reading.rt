//! The lines of a document, without what its values say.

ghost use Rattle.std.specs.Prelude.{◌≡◌, ◌<◌, None, length, IfOk};
ghost use Rattle.toml_parser.specs.Strings.{recursion_limit};
ghost use Rattle.toml.specs.Parse as spec;
ghost use Rattle.sja_plan_reading.specs.Inside.Reading.{IsRead, Refuses};
ghost use Rattle.sja_plan_reading.specs.Inside.Rooms.{IsSound, TakesPair, TakesHeader, TakesExpression, TakesLine};

use super::grammar::{behind, header_key, key_equals, line_end, skip_bom};
use super::refusal::Refusal;
use super::room::Room;
use super::values::pass_value;
use super::what::What;
use std::alloc::Global;
use toml_parser::RECURSION_LIMIT;
use toml_parser::text::{byte_at, first, skip, skip_blank};

/// The definitions of a document.
pub(crate) fn read(alloc: Global, text: &str) -> Result<Room, Refusal>
    ensures ok { IfOk result (IsRead text.now) }
    ensures bad { Refuses result (spec.parse_document text.now ≡ None) }
{
    let mut room = Room::new(alloc);
    let mut rest = skip_bom(text);
    'lines: loop {
        let start = skip_blank(rest, true);
        if start.is_empty() {
            return Ok(room);
        }
        rest = read_line(alloc, &mut room, start)?;
    }
}

/// Takes in a line. Answers what stands behind it.
pub(crate) fn read_line<'a>(
    alloc: Global,
    room: &mut Room,
    text: &'a str,
) -> Result<&'a str, Refusal>
    requires { IsSound room.old }
    ensures ok { IfOk result (λ rest. TakesLine room.old room.new text.now rest.now) }
    ensures bad { Refuses result (spec.line text.now ≡ None) }
    ensures shorter { IfOk result (λ rest. length rest.now < length text.now) }
{
    let rest = read_expression(alloc, room, text)?;
    line_end(rest)?;
    Ok(rest)
}

/// Takes in an expression.
fn read_expression<'a>(alloc: Global, room: &mut Room, text: &'a str) -> Result<&'a str, Refusal>
    requires { IsSound room.old }
    ensures ok { IfOk result (λ rest. TakesExpression room.old room.new text.now rest.now) }
    ensures bad { Refuses result (spec.expression text.now ≡ None) }
    ensures shorter { IfOk result (λ rest. length rest.now < length text.now) }
{
    if first(text) != b'[' {
        let rest = read_pair(alloc, room, text)?;
        Ok(rest)
    } else if byte_at(text, 1) == b'[' {
        let closing = read_header(alloc, room, skip(text, 2), What::Array)?;
        let rest = behind(closing, b']')?;
        Ok(rest)
    } else {
        let rest = read_header(alloc, room, skip(text, 1), What::Table)?;
        Ok(rest)
    }
}

/// Takes in the key of a header.
fn read_header<'a>(
    alloc: Global,
    room: &mut Room,
    text: &'a str,
    what: What,
) -> Result<&'a str, Refusal>
    requires { IsSound room.old }
    ensures ok { IfOk result (λ rest. TakesHeader room.old room.new what text.now rest.now) }
    ensures bad { Refuses result (spec.header_key text.now ≡ None) }
    ensures shorter { IfOk result (λ rest. length rest.now < length text.now) }
{
    let (key, rest) = header_key(alloc, text)?;
    room.header(&key, what)?;
    Ok(rest)
}

/// Takes in a pair.
fn read_pair<'a>(alloc: Global, room: &mut Room, text: &'a str) -> Result<&'a str, Refusal>
    requires { IsSound room.old }
    ensures ok { IfOk result (λ rest. TakesPair room.old room.new text.now rest.now) }
    ensures bad { Refuses result (spec.keyval (spec.val recursion_limit) text.now ≡ None) }
    ensures shorter { IfOk result (λ rest. length rest.now < length text.now) }
{
    let (key, value) = key_equals(alloc, text)?;
    let pair = room.pair(&key)?;
    let rest = pass_value(alloc, value, RECURSION_LIMIT)?;
    room.look(alloc, pair, value)?;
    Ok(rest)
}
