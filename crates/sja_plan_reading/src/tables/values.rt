//! The values of a document, passed over. Of them nothing is kept.

ghost use Rattle.std.specs.Prelude.{◌≡◌, ℕ, ◌<◌, None, length, IfOk};
ghost use Rattle.toml.specs.Data.{Items};
ghost use Rattle.toml.specs.Tables.{no_nodes};
ghost use Rattle.toml.specs.Parse as spec;
ghost use Rattle.sja_plan_reading.specs.Inside.Reading.{Passes, Refuses};

use super::grammar::{after_element, key_equals};
use super::refusal::Refusal;
use super::room::Room;
use std::alloc::Global;
use toml_parser::text::{first, skip, skip_blank};
use toml_parser::{quoted, starts_string, unquoted};

/// What stands behind a value, with arrays and inline tables at most so deep.
#[cycle(passing)]
pub(crate) fn pass_value(alloc: Global, text: &str, depth: usize) -> Result<&str, Refusal>
    ensures value { Passes result (spec.val depth text.now) }
    ensures bad { Refuses result (spec.val depth text.now ≡ None) }
    ensures shorter { IfOk result (λ rest. length rest.now < length text.now) }
{
    let byte = first(text);
    if byte != b'[' && byte != b'{' {
        let rest = pass_atom(alloc, text)?;
        return Ok(rest);
    }
    if depth == 0 {
        return Err(Refusal::NoToml);
    }
    if byte == b'[' {
        let array_end = pass_array(alloc, skip(text, 1), depth - 1)?;
        Ok(array_end)
    } else {
        let table_end = pass_table(alloc, skip(text, 1), depth - 1)?;
        Ok(table_end)
    }
}

/// What stands behind the rest of an array.
#[cycle(passing)]
fn pass_array(alloc: Global, text: &str, depth: usize) -> Result<&str, Refusal>
    ensures value { (n : ℕ) → length text.now < n → (found : Items)
        → Passes result (spec.items (spec.val depth) n found text.now) }
    ensures bad { (n : ℕ) → length text.now < n → (found : Items)
        → Refuses result (spec.items (spec.val depth) n found text.now ≡ None) }
    ensures shorter { IfOk result (λ rest. length rest.now < length text.now) }
{
    let mut rest = text;
    'items: loop {
        let start = skip_blank(rest, true);
        if first(start) == b']' {
            return Ok(skip(start, 1));
        }
        let after = pass_value(alloc, start, depth)?;
        rest = after_element(after, b']')?;
    }
}

/// What stands behind the rest of an inline table.
#[cycle(passing)]
fn pass_table(alloc: Global, text: &str, depth: usize) -> Result<&str, Refusal>
    ensures value { (n : ℕ) → length text.now < n → Passes result (spec.members (spec.val depth) n no_nodes text.now) }
    ensures bad { (n : ℕ) → length text.now < n
        → Refuses result (spec.members (spec.val depth) n no_nodes text.now ≡ None) }
    ensures shorter { IfOk result (λ rest. length rest.now < length text.now) }
{
    let mut room = Room::new(alloc);
    let mut rest = text;
    'members: loop {
        let start = skip_blank(rest, true);
        if first(start) == b'}' {
            room.judge(alloc)?;
            return Ok(skip(start, 1));
        }
        let (key, value) = key_equals(alloc, start)?;
        room.pair(&key)?;
        let after = pass_value(alloc, value, depth)?;
        rest = after_element(after, b'}')?;
    }
}

/// What stands behind a string or a scalar.
fn pass_atom(alloc: Global, text: &str) -> Result<&str, Refusal>
    ensures value { Passes result (spec.atom text.now) }
    ensures bad { Refuses result (spec.atom text.now ≡ None) }
    ensures shorter { IfOk result (λ rest. length rest.now < length text.now) }
{
    if starts_string(text) {
        let (_, rest) = quoted(alloc, text)?;
        Ok(rest)
    } else {
        let (_, rest) = unquoted(alloc, text)?;
        Ok(rest)
    }
}
