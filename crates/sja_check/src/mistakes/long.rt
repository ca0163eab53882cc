//! Long documents that are no plan. `toml` would build tables of many times their bytes, so what is wrong is sought in
//! an abridged document, in the front of one, or without tables.

use super::super::document::Document;
use super::super::outline::{Token, first_unknown, nodes_in};
use super::super::page::Page;
use super::in_document;
use super::keys::{keys_of, of_key, of_long};
use super::numbers::of_count;
use sja_plan::FIRST_BY_BYTES;
use sja_plan_reading::{MOST_BYTES, PlanFault, read_plan};
use sja_steps::MOST_NODES;

/// Says of a long document with a wrong key, or with too many nodes, what its tables would say; where it is long even
/// abridged what its front says, and else nothing. So long a document has version 3.
pub(crate) fn in_long(page: &mut Page, bytes: &[u8], fault: PlanFault) -> bool {
    if !has_fault(page, bytes, fault) {
        return false;
    }
    let Ok(document) = Document::of_long(page.alloc, bytes, MOST_BYTES) else {
        return page.refuse();
    };
    if !document.is_front {
        in_document(page, &document, fault)
    } else if fault == PlanFault::NodeCount {
        crowded(page, bytes, &document)
    } else {
        misnamed(page, bytes, &document)
    }
}

/// Says which key is wrong: the first one that no plan has, where that is written without escapes, else the one in this
/// front of the document.
fn misnamed(page: &mut Page, bytes: &[u8], front: &Document) -> bool {
    match first_unknown(bytes, keys_of(FIRST_BY_BYTES)) {
        Some(key) => of_wrong(page, bytes, key),
        None => of_long(front).tell(page, front),
    }
}

/// Says how many nodes there are, where each has its header and this front has the first too many.
fn crowded(page: &mut Page, bytes: &[u8], front: &Document) -> bool {
    if front.nodes().len() <= usize::from(MOST_NODES) {
        return false;
    }
    let mut said = of_count(front, PlanFault::NodeCount);
    let [_, most] = said.numbers;
    let nodes = i64::try_from(nodes_in(bytes)).unwrap_or(i64::MAX);
    said.numbers = [nodes, most];
    nodes > most && said.tell(page, front)
}

/// Whether the bytes have this fault.
fn has_fault(page: &Page, bytes: &[u8], fault: PlanFault) -> bool {
    matches!(read_plan(page.alloc, bytes), Err(found) if found == fault)
}

/// Says that this key is unknown; nothing where it has an escape.
fn of_wrong(page: &mut Page, bytes: &[u8], key: Token) -> bool {
    let Ok(document) = Document::of_key(page.alloc, bytes, key) else {
        return page.refuse();
    };
    match document.first_key() {
        Some(key) if !key.contains('\\') => of_key(key, FIRST_BY_BYTES).tell(page, &document),
        _ => false,
    }
}
