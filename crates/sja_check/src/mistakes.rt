//! [`mistake`]: what is wrong with the bytes of a plan, in words.

ghost use Rattle.std.specs.Prelude.{IfOk, string_bytes};
ghost use Rattle.sja_check.specs.Lines.{IsBrief};

mod bytes;
mod general;
mod keys;
mod long;
mod node_keys;
mod numbers;
mod toml_fault;
mod values;
mod wording;

use super::document::Document;
use super::kind::Kind;
use super::lines::text_of;
use super::page::Page;
use super::texts::text_words;
use bytes::{no_text, too_long};
use can_frame::OutOfMemory;
use general::general;
use keys::of_keys;
use long::in_long;
use numbers::of_count;
use sja_plan_reading::{MOST_BYTES, PlanFault};
use std::alloc::Global;
use toml::Value;
use toml_fault::no_toml;

/// The words that explain this fault of these bytes: a line or two, each of at most 100 characters (this project's own
/// rule). The first says where the mistake is and what is written there, the second mostly what would be right. Where
/// the bytes don't have this fault the words are of the fault alone.
///
/// Error: [`OutOfMemory`] where memory was refused.
pub fn mistake(alloc: Global, bytes: &[u8], fault: PlanFault) -> Result<String, OutOfMemory>
    ensures { IfOk result (λ text. IsBrief (string_bytes text)) }
{
    let mut page = Page::new(alloc);
    if !explain(&mut page, bytes, fault) {
        page.lines.clear();
        general(&mut page, fault);
    }
    if page.refused {
        return Err(OutOfMemory);
    }
    Ok(text_of(alloc, page.lines.as_slice())?)
}

/// Says what is wrong, where the bytes have this fault.
fn explain(page: &mut Page, bytes: &[u8], fault: PlanFault) -> bool {
    match fault {
        PlanFault::TooLong => too_long(page, bytes),
        PlanFault::NotText => no_text(page, bytes),
        PlanFault::Toml => no_toml(page, bytes),
        PlanFault::Memory => false,
        PlanFault::Key | PlanFault::NodeCount if bytes.len() > MOST_BYTES => {
            in_long(page, bytes, fault)
        }
        _ => in_tables(page, bytes, fault),
    }
}

/// Says what is wrong in the tables of a document, where it has this fault.
fn in_tables(page: &mut Page, bytes: &[u8], fault: PlanFault) -> bool {
    match Document::read(page.alloc, bytes) {
        Ok(document) => in_document(page, &document, fault),
        Err(_) => page.refuse(),
    }
}

/// Says what is wrong in a document, where it has this fault.
pub(crate) fn in_document(page: &mut Page, document: &Document, fault: PlanFault) -> bool {
    let Value::Table(_) = document.root else {
        return false;
    };
    match fault {
        PlanFault::Key => of_keys(document).tell(page, document),
        PlanFault::Step(node, number) => text_words(page, document, Kind::Step(node), number),
        PlanFault::Turn(number) => text_words(page, document, Kind::Turn, number),
        PlanFault::Strike(number) => text_words(page, document, Kind::Strike, number),
        _ => of_count(document, fault).tell(page, document),
    }
}
