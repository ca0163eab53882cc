//! Where a text stops being a document.

ghost use Rattle.std.specs.Prelude.{IfOk, IfSome};
ghost use Rattle.sja_plan_reading.specs.FaultyLines.{IsFaultyFrom};

use super::grammar::skip_bom;
use super::reading::read_line;
use super::refusal::Refusal;
use super::room::Room;
use std::alloc::{AllocError, Global};
use toml_parser::text::skip_blank;

/// The text from its first line on that isn't TOML, with what stands blank before that; none where all lines are.
///
/// Whether the keys of the lines before it go together isn't looked at. Error: memory was refused.
pub fn faulty_line<'a>(alloc: Global, text: &'a str) -> Result<Option<&'a str>, AllocError>
    ensures { IfOk result (λ found. IfSome found (λ rest. IsFaultyFrom text.now rest.now)) }
{
    let mut room = Room::new(alloc);
    let mut rest = skip_bom(text);
    'lines: loop {
        let start = skip_blank(rest, true);
        if start.is_empty() {
            return Ok(None);
        }
        match read_line(alloc, &mut room, start) {
            Ok(after) => rest = after,
            Err(Refusal::NoToml) => return Ok(Some(rest)),
            Err(Refusal::Open) => return Ok(None),
            Err(Refusal::NoMemory) => return Err(AllocError),
        }
    }
}
