//! Pieces of a document's grammar.

ghost use Rattle.std.specs.Prelude.{◌≡◌, ◌<◌, ◌≤◌, length, Some, None, if◌then◌else◌, IfOk};
ghost use Rattle.toml_parser.specs.Lexical.{skip_ws};
ghost use Rattle.toml.specs.Parse as spec;
ghost use Rattle.sja_plan_reading.specs.Inside.Reading.{Takes, TakesKey};

use super::refusal::Refusal;
use std::alloc::Global;
use toml_parser::text::{byte_at, first, skip, skip_blank, skip_ws};
use toml_parser::{Key, dotted_key};

/// The text without a byte order mark.
pub(crate) fn skip_bom(text: &str) -> &str
    ensures rest { result.now ≡ spec.skip_bom text.now }
    ensures within { length result.now ≤ length text.now }
{
    if first(text) == 0xef && byte_at(text, 1) == 0xbb && byte_at(text, 2) == 0xbf {
        &text[3..]
    } else {
        text
    }
}

/// What stands behind this byte, where the text begins with it.
pub(crate) fn behind(text: &str, byte: u8) -> Result<&str, Refusal>
    requires some { 0 < byte }
    requires ascii { byte < 128 }
    ensures value { Takes (λ rest. rest.now) result (spec.after_byte byte text.now) }
    ensures shorter { IfOk result (λ rest. length rest.now < length text.now) }
{
    if first(text) == byte {
        Ok(skip(text, 1))
    } else {
        Err(Refusal::NoToml)
    }
}

/// The key of a header, and what stands behind its first closing bracket.
pub(crate) fn header_key(alloc: Global, text: &str) -> Result<(Key, &str), Refusal>
    ensures value { TakesKey result (spec.header_key text.now) }
    ensures shorter { IfOk result (λ p. length p.1.now < length text.now) }
{
    let (key, rest) = dotted_key(alloc, skip_ws(text))?;
    let rest = behind(rest, b']')?;
    Ok((key, rest))
}

/// A key, and what stands behind its `=`.
pub(crate) fn key_equals(alloc: Global, text: &str) -> Result<(Key, &str), Refusal>
    ensures value { TakesKey result (spec.key_equals text.now) }
    ensures shorter { IfOk result (λ p. length p.1.now < length text.now) }
{
    let (key, rest) = dotted_key(alloc, text)?;
    let rest = behind(rest, b'=')?;
    Ok((key, skip_ws(rest)))
}

/// What stands behind the comma of an element, or at the closing bracket.
pub(crate) fn after_element(text: &str, closing: u8) -> Result<&str, Refusal>
    ensures value { Takes (λ rest. rest.now) result (spec.after_element closing text.now) }
    ensures within { IfOk result (λ rest. length rest.now ≤ length text.now) }
{
    let rest = skip_blank(text, true);
    if first(rest) == b',' {
        Ok(skip(rest, 1))
    } else if first(rest) == closing {
        Ok(rest)
    } else {
        Err(Refusal::NoToml)
    }
}

/// The text, where its line ends there.
pub(crate) fn line_end(text: &str) -> Result<&str, Refusal>
    ensures { Takes (λ rest. rest.now) result (if spec.ends_line (skip_ws text.now) then Some text.now else None) }
{
    let end = skip_ws(text);
    if end.is_empty() || matches!(first(end), b'#' | b'\n' | b'\r') {
        Ok(text)
    } else {
        Err(Refusal::NoToml)
    }
}
