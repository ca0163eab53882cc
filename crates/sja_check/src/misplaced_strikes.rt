//! [`misplaced`]: a strike by place that is at no bit, in words.

ghost use Rattle.std.specs.Prelude.{IfOk, string_bytes};
ghost use Rattle.sja_check.specs.Lines.{IsBrief};

use super::document::Document;
use super::kind::Kind;
use super::lines::text_of;
use super::page::{Page, Piece};
use can_frame::OutOfMemory;
use std::alloc::Global;

/// The words for a strike by place, of this number among those of the bytes' document, that is at no bit of the run:
/// where it stands, and how many frames the run has, the last of which has its SOF in this bit.
///
/// Error: [`OutOfMemory`] where memory was refused.
pub fn misplaced(
    alloc: Global,
    bytes: &[u8],
    number: usize,
    frames: usize,
    last: Option<u32>,
) -> Result<String, OutOfMemory>
    ensures { IfOk result (λ text. IsBrief (string_bytes text)) }
{
    let mut page = Page::new(alloc);
    match Document::read(alloc, bytes) {
        Ok(document) => no_place(&mut page, &document, number),
        Err(_) => page.refuse(),
    };
    frames_words(&mut page, frames, last);
    if page.refused {
        return Err(OutOfMemory);
    }
    Ok(text_of(alloc, page.lines.as_slice())?)
}

/// The words for strikes by place in too many frames.
///
/// Error: [`OutOfMemory`] where memory was refused.
pub fn too_many_places(alloc: Global) -> Result<String, OutOfMemory>
    ensures { IfOk result (λ text. IsBrief (string_bytes text)) }
{
    let mut page = Page::new(alloc);
    page.say(
        "strikes by place strike in at most 1000 frames, and as many runs have at most 100000000 bits",
        &[],
    );
    if page.refused {
        return Err(OutOfMemory);
    }
    Ok(text_of(alloc, page.lines.as_slice())?)
}

/// Says which strike it is.
fn no_place(page: &mut Page, document: &Document, number: usize) -> bool {
    let template = "{0}strike {1}: {2}: the run has no such place";
    let place = number.wrapping_sub(1);
    document.say(page, (Kind::Strike, place), template, [Piece::Number(0); 3])
}

/// Says how many frames there are, and where the last of them starts.
fn frames_words(page: &mut Page, frames: usize, last: Option<u32>) -> bool {
    let template = match frames {
        0 => "no node starts a frame",
        1 => "there is 1 frame, which starts in bit {1}",
        _ => "there are {0} frames, the last of which starts in bit {1}",
    };
    let pieces = [
        Piece::Number(frames as u64),
        Piece::Number(u64::from(last.unwrap_or(0))),
    ];
    page.say(template, &pieces)
}
